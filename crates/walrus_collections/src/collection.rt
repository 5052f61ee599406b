//! Items under ids: what all collections of a module are.
ghost use Rattle.std.specs.Prelude.{◌≡◌, ◌↔◌, ◌<◌, ◌≤◌, ◌+◌, [], ◌∷◌, ◌++◌, Bool, IsTrue, IsOk, OnOk, OnErr, IfSome, Some, None, slice_set};
ghost use Rattle.std.specs.Option.{option_map};
ghost use Rattle.std.specs.Borrow.{sem};
ghost use Rattle.walrus_arena.specs.Arena.{item_at, IsLive, next_id, live_count, lowest_id, entries, ids, IsTold};
ghost use Rattle.walrus_collections.specs.LookUps.{items, lowest};
ghost use Rattle.walrus_collections.specs.Lends.{lends_item};

use crate::iter::Items;
use std::alloc::{AllocError, Global};
use std::marker::Model;
use walrus_arena::{Id, Ids, Iter, Tombstone, TombstoneArena};

/// A test on items, by which they are looked up.
pub trait Test<T> {
    /// Whether an item passes.
    ghost passes: { Self → T → Bool };

    /// Whether the item passes.
    fn passes(&self, item: &T) -> bool
        ensures { result ≡ passes self.now item.now };
}

/// The items of one kind under ids. A deleted item's id stays dead, and no id is given out twice.
///
/// Finding by id, adding and deleting take constant time. Look-ups by anything else go through the items.
#[derive(Drop)]
pub struct Collection<T, S> {
    alloc: Global,
    arena: TombstoneArena<T, S>,
}

impl<T, S> Model for Collection<T, S> {
    ghost use Rattle.walrus_arena.specs.Arena.{Arena, arena_code};

    ghost Value = { Arena T };

    ghost coded = { arena_code T.code };

    ghost view = { λ c. c.arena };
}

impl<T, S> Collection<T, S> {
    /// No items. Takes no memory.
    pub fn new(alloc: Global) -> Self
        ensures empty { result.slots ≡ [] }
        ensures room { result.room ≡ 0 }
    {
        Collection {
            alloc,
            arena: TombstoneArena::new(alloc),
        }
    }

    /// Whether the id's item lives.
    pub fn contains(&self, id: Id<S>) -> bool
        ensures { IsTrue result ↔ IsLive self.now id }
    {
        self.arena.contains(id)
    }

    /// The item of a live id.
    pub fn get(&self, id: Id<S>) -> &T
        requires { IsLive self.now id }
        ensures { item_at self.now id ≡ Some result.now }
    {
        &self.arena[id]
    }

    /// The item of a live id, for writing. A whole item that is put in its place brings its own id.
    pub fn get_mut(&mut self, id: Id<S>) -> &mut T
        requires { IsLive self.old id }
        ensures* writes_back { sem 𝓛 (lends_item T.row S.row self.entry id result) }
        ensures value { item_at self.old id ≡ Some result.now }
    {
        &mut self.arena[id]
    }

    /// Deletes the item of a live id: it is told so, and dropped. The id stays dead. What names the item stays.
    pub fn delete(&mut self, id: Id<S>)
    where
        T: Tombstone + Drop,
        requires { IsLive self.old id }
        ensures deleted { self.new.slots ≡ slice_set self.old.slots id None }
        ensures told { IfSome (item_at self.old id) (IsTold T.told) }
        ensures room { self.old.room ≤ self.new.room }
    {
        self.arena.delete(id)
    }

    /// The live items, by rising id.
    pub fn iter(&self) -> Items<'_, T, S>
        ensures { result ≡ items self.now }
    {
        Items::new(self.arena.iter())
    }

    /// The live ids, by rising id.
    pub fn ids(&self) -> Ids<'_, T, S>
        ensures { result ≡ ids self.now }
    {
        self.arena.ids()
    }

    /// The live item of the lowest id that passes the test, with that id. Goes through the items.
    pub fn lowest<P: Test<T>>(&self, test: &P) -> Option<(Id<S>, &T)>
        ensures found { option_map (λ e. (e.0, e.1.now)) result ≡ lowest (P.passes test.now) self.now }
        ensures live { IfSome result (λ e. item_at self.now e.0 ≡ Some e.1.now) }
    {
        for (id, item) in self.entries() {
            if test.passes(item) {
                return Some((id, item));
            }
        }
        None
    }

    /// The lowest live id whose item passes the test. Goes through the items.
    pub fn lowest_id<P: Test<T>>(&self, test: &P) -> Option<Id<S>>
        ensures found { result ≡ lowest_id (P.passes test.now) self.now }
        ensures live { IfSome result (IsLive self.now) }
    {
        match self.lowest(test) {
            Some((id, _)) => Some(id),
            None => None,
        }
    }

    /// The id that the next add gives out: the count of ids given out before.
    pub fn next_id(&self) -> Id<S>
        ensures { result ≡ next_id self.now }
    {
        self.arena.next_id()
    }

    /// Makes room for `additional` more items, so that as many adds can't be refused for want of it. Adds that copy a text or a
    /// name take memory for that too.
    ///
    /// # Errors
    ///
    /// Want of memory. The items stay as they were.
    pub fn reserve(&mut self, additional: usize) -> Result<(), AllocError>
        ensures items { self.new.slots ≡ self.old.slots }
        ensures room { OnOk result (additional ≤ self.new.room) }
        ensures grows { self.old.room ≤ self.new.room }
        ensures succeeds { additional ≤ self.old.room → IsOk result }
        ensures refused { OnErr result (self.new.room < additional) }
    {
        self.arena.reserve(additional)
    }

    // Adds an item, for which there is room, and gives its id.
    pub(crate) fn push_reserved(&mut self, item: T) -> Id<S>
        requires { 0 < self.old.room }
        ensures id { result ≡ next_id self.old }
        ensures added { self.new.slots ≡ self.old.slots ++ Some item ∷ [] }
        ensures room { self.new.room + 1 ≡ self.old.room }
    {
        self.arena.alloc_reserved(item)
    }

    // The live items with their ids, by rising id.
    pub(crate) fn entries(&self) -> Iter<'_, T, S>
        ensures { result ≡ entries self.now }
    {
        self.arena.iter()
    }

    // How many items live.
    pub(crate) fn live_count(&self) -> usize
        ensures { result ≡ live_count self.now }
    {
        self.arena.len()
    }

    // Where its lists take their memory.
    pub(crate) fn alloc(&self) -> Global {
        self.alloc
    }
}
