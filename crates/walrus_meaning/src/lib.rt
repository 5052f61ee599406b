//! What a module means: the abstract module of the standard's grammar, whose numbers are ids.
#![tactic(auto)]

ghost use Rattle.walrus_meaning.specs.Laws.{EmptyMeansEmpty, ItemsAreSeen, DeletesAreSeen, AddsAreSeen};
ghost use Rattle.walrus_meaning.specs.Told.{NamesAreTold};
ghost use Rattle.walrus_arena.specs.Arena.{Arena};

/// A module without items means the empty module.
pub fn empty_means_empty()
    ensures { EmptyMeansEmpty }
{}

/// What an item is seen as stands at its id; where an item is deleted, the slot is empty.
pub fn items_are_seen<A, B>()
    ensures items { (see : A → B) (a : Arena A) → ItemsAreSeen see a }
    ensures deleted { (see : A → B) (a : Arena A) → DeletesAreSeen see a }
{}

/// An item that is added is one more slot of its space, and nothing else changes.
pub fn adds_are_seen()
    ensures { AddsAreSeen }
{}

/// What a visitor of an instruction is told that it names, field by field, is what its operator names: in the order of its immediates,
/// and for `memory.init`, `memory.copy`, `table.init`, `table.copy` and `array.copy` in the reverse of it.
pub fn names_are_told()
    ensures { NamesAreTold }
{}

// Passed on to crates above, which then list this one alone.
pub mod linked {
    pub use walrus_linked::{empty_is_linked, imports_keep_linked, own_ids_are_kept};
}
