//! Going through the live items of a collection.
ghost use Rattle.std.specs.Prelude.{◌≡◌, ◌++◌, ℕ, List, OnOk};
ghost use Rattle.walrus_arena.specs.Arena.{item_at};
ghost use Rattle.walrus_reasons.specs.Picks.{picked, picked_at};

use std::alloc::AllocError;
use walrus_arena::Id;
use walrus_module::collections::Collection;

/// What is picked for an item of a collection.
pub(crate) trait Picks<T, S, X> {
    /// What is picked for the item of this id.
    ghost picks: { Self → ℕ → T → List X };

    /// Adds it to what was found.
    ///
    /// # Errors
    ///
    /// Want of memory.
    fn pick(&self, id: Id<S>, item: &T, found: &mut Vec<X>) -> Result<(), AllocError>
        ensures { OnOk result (found.new.items ≡ found.old.items ++ picks self.now id item.now) };
}

// Picks for the item of this number, if it lives.
fn pick_at<T, S, X, P: Picks<T, S, X>>(
    items: &Collection<T, S>,
    picks: &P,
    index: usize,
    found: &mut Vec<X>,
) -> Result<(), AllocError>
    ensures { OnOk result (found.new.items ≡ found.old.items ++ picked_at (P.picks picks.now) index (item_at items.now index)) }
{
    if index >= items.next_id().index() {
        return Ok(());
    }
    if items.contains(Id::from_index(index)) {
        let item = items.get(Id::from_index(index));
        picks.pick(Id::from_index(index), item, found)?;
    }
    Ok(())
}

/// Picks for each live item, by rising id.
///
/// # Errors
///
/// Want of memory.
pub(crate) fn pick_each<T, S, X, P: Picks<T, S, X>>(
    items: &Collection<T, S>,
    picks: &P,
    found: &mut Vec<X>,
) -> Result<(), AllocError>
    ensures { OnOk result (found.new.items ≡ found.old.items ++ picked (P.picks picks.now) items.now) }
{
    for index in 0..items.next_id().index() {
        pick_at(items, picks, index, found)?;
    }
    Ok(())
}
