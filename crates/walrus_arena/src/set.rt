//! A set of values under ids.
ghost use Rattle.std.specs.Prelude.{◌≡◌, [], ◌∷◌, ◌++◌, IsTrue, IfSome, IfOk, OnErr, Some, None, MatchOption, slice_set};
ghost use Rattle.walrus_arena.specs.Arena.{item_at, IsLive, next_id, entries, IsTold};
ghost use Rattle.walrus_arena.specs.Set.{id_equal_to, AreDistinct};

use crate::arena::{Tombstone, TombstoneArena};
use crate::id::Id;
use crate::iter::Iter;
use std::alloc::{AllocError, Global};
use std::collections::BTreeMap;
use std::marker::Model;
use std::ops::Index;

/// Values under ids, each value once. A removed value's id stays dead, and no id is given out twice.
///
/// A value is found by the order of values, in the logarithm of their count of comparisons, whatever the values are.
#[derive(Drop)]
pub struct ArenaSet<T: Clone + Ord> {
    arena: TombstoneArena<T, T>,
    // The id of each live value, under a clone of it.
    index: BTreeMap<T, u32>,
}

impl<T: Clone + Ord> Model for ArenaSet<T> {
    ghost use Rattle.std.specs.BTreeMap.{get};
    ghost use Rattle.walrus_arena.specs.Arena.{Arena, arena_code};
    ghost use Rattle.walrus_arena.specs.Set.{IsIndex};

    ghost Value = { Arena T };

    ghost coded = { arena_code T.code };

    ghost view = { λ s. record s.arena { room = 0 } };

    ghost invariant = { λ s. IsIndex T.eq (get T.cmp s.index) s.arena.slots };
}

impl<T: Clone + Ord> ArenaSet<T> {
    /// A set that has given out no id. Takes no memory.
    pub fn new(alloc: Global) -> Self
        ensures { result ≡ record { slots = []; room = 0 } }
    {
        ArenaSet {
            arena: TombstoneArena::new(alloc),
            index: BTreeMap::new(alloc),
        }
    }

    /// The id of the live value that equals `value`, or else of `value`, which is then added.
    ///
    /// Asks that a clone of `value` equals it.
    ///
    /// # Errors
    ///
    /// Want of memory. The set stays as it was, and `value` is dropped.
    pub fn insert(&mut self, value: T) -> Result<Id<T>, AllocError>
        requires { (copy : T) → T.is_clone value copy → IsTrue (T.eq value copy) }
        ensures inserted { IfOk result (λ id. MatchOption (id_equal_to T.eq value self.old)
            ((id ≡ next_id self.old) × (self.new ≡ record self.old { slots = self.old.slots ++ Some value ∷ [] }))
            (λ found. (id ≡ found) × (self.new ≡ self.old))) }
        ensures refused { OnErr result (self.new ≡ self.old) }
    {
        if let Some(found) = self.index.get(&value) {
            return Ok(Id::from_index(*found as usize));
        }
        let key = value.clone()?;
        self.arena.reserve(1)?;
        self.index.insert(key, self.arena.next_id().number())?;
        Ok(self.arena.alloc_reserved(value))
    }

    /// The id that the next new value gets.
    pub fn next_id(&self) -> Id<T>
        ensures { result ≡ next_id self.now }
    {
        self.arena.next_id()
    }

    /// Removes the value of an id: it is told so by `on_delete`, and dropped. The id stays dead.
    /// Does nothing where the id is dead already.
    pub fn remove(&mut self, id: Id<T>)
    where
        T: Tombstone,
        ensures removed { self.new ≡ record self.old { slots = slice_set self.old.slots id None } }
        ensures told { IfSome (item_at self.old id) (IsTold T.told) }
    {
        let index = id.index();
        if let Some(value) = self.arena.get(Id::from_index(index)) {
            self.index.remove(value);
            self.arena.delete(Id::from_index(index));
        }
    }

    /// The live values with their ids, by rising id.
    pub fn iter(&self) -> Iter<'_, T, T>
        ensures entries { result ≡ entries self.now }
        ensures distinct { AreDistinct T.eq self.now }
    {
        self.arena.iter()
    }
}

impl<T: Clone + Ord> Index<Id<T>> for ArenaSet<T> {
    type Output = T;

    ghost can_index = { IsLive };

    ghost index_gives = { λ s id value. item_at s id ≡ Some value };

    fn index(&self, id: Id<T>) -> &T {
        self.arena.get(id).unwrap()
    }
}
