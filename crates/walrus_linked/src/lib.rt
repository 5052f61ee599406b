//! When a module is linked, and what calls keep of it and of its collections.
#![tactic(auto)]

ghost use Rattle.std.specs.Prelude.{ℕ};
ghost use Rattle.walrus_linked.specs.Empty.{EmptyIsLinked};
ghost use Rattle.walrus_linked.specs.Kept.{ImportsKeepLinked};
ghost use Rattle.walrus_linked.specs.OwnIds.{OwnIdsAreKept};

/// A module without items is linked.
pub fn empty_is_linked()
    ensures { EmptyIsLinked }
{}

/// A linked module to which an item is added with the import that brings it stays linked, where the types that the item
/// names live.
pub fn imports_keep_linked()
    ensures { ImportsKeepLinked }
{}

/// Each item of a collection has the id by which it is found, where there are none and after each call, but for one that
/// lends an item for writing, where the whole item is exchanged for one of another id.
pub fn own_ids_are_kept<T>()
    ensures { (id_of : T → ℕ) → OwnIdsAreKept id_of }
{}
