//! The arena: items by id, live or dead.
ghost use Rattle.std.specs.Prelude.{◌≡◌, ◌+◌, ◌<◌, ◌≤◌, ◌↔◌, [], ◌∷◌, ◌++◌, IsTrue, IfSome, IsOk, IfOk, OnOk, OnErr, Some, None, slice_set, option_copied};
ghost use Rattle.std.specs.Option.{option_copied_mut};
ghost use Rattle.std.specs.Borrow.{sem};
ghost use Rattle.walrus_arena.specs.Arena.{item_at, IsLive, next_id, live_count, entries, ids, IsTold};
ghost use Rattle.walrus_arena.specs.Lends.{lends_get, lends_item};

use crate::id::Id;
use crate::iter::{Ids, Iter};
use crate::live::{item_in, last_id};
use std::alloc::{AllocError, Global};
use std::marker::{Model, PhantomData};
use std::ops::{Index, IndexMut};

/// An item that frees what it holds as it is deleted.
pub trait Tombstone {
    /// What being told so may make of an item.
    ghost told: { Self → Self → Type 0 } = { λ _ _. Unit {0} };

    /// Is called once, as the item is deleted. The item is dropped afterwards.
    fn on_delete(&mut self)
        ensures { told self.old self.new };
}

/// Items under ids. A deleted item's id stays dead, and no id is given out twice.
///
/// Finding, adding (as many times as were reserved for) and deleting take constant time.
#[derive(Drop)]
pub struct TombstoneArena<T, S> {
    // The live items with their ids, in no order.
    live: Vec<(u32, T)>,
    // By id, the place of its item in `live`, or `NOWHERE` where it is dead.
    index: Vec<u32>,
    space: PhantomData<S>,
}

// The place of an id whose item is dead: past the end of each list of live items, as fewer ids are given out.
const NOWHERE: u32 = u32::MAX;

impl<T, S> Model for TombstoneArena<T, S> {
    ghost use Rattle.std.specs.Prelude.{◌-◌, ◌^◌, min, vec_len, vec_capacity};
    ghost use Rattle.walrus_arena.specs.Arena.{Arena, arena_code};
    ghost use Rattle.walrus_arena.specs.Dense.{slots_of, IsDense};

    ghost Value = { Arena T };

    ghost coded = { arena_code T.code };

    ghost view = { λ a. record {
      slots = slots_of a.live.items a.index.items;
      room = min (min (vec_capacity a.index) (2 ^ 32 - 1) - vec_len a.index) (vec_capacity a.live - vec_len a.live);
    } };

    ghost invariant = { λ a. IsDense a.live.items a.index.items };
}

impl<T, S> TombstoneArena<T, S> {
    /// An arena that has given out no id. Takes no memory.
    pub fn new(alloc: Global) -> Self
        ensures empty { result.slots ≡ [] }
        ensures room { result.room ≡ 0 }
    {
        TombstoneArena {
            live: Vec::new(alloc),
            index: Vec::new(alloc),
            space: PhantomData,
        }
    }

    /// Makes room for `additional` more items, so that as many adds can't be refused.
    ///
    /// # Errors
    ///
    /// Want of memory. The items stay as they were.
    pub fn reserve(&mut self, additional: usize) -> Result<(), AllocError>
        ensures items { self.new.slots ≡ self.old.slots }
        ensures room { OnOk result (additional ≤ self.new.room) }
        ensures grows { self.old.room ≤ self.new.room }
        ensures succeeds { additional ≤ self.old.room → IsOk result }
        ensures refused { OnErr result (self.new.room < additional) }
    {
        if additional > u32::MAX as usize - self.index.len() {
            return Err(AllocError);
        }
        self.index.reserve(additional)?;
        self.live.reserve(additional)
    }

    /// Adds an item and gives its id.
    ///
    /// # Errors
    ///
    /// Want of memory. The arena stays as it was, and the item is dropped.
    pub fn alloc(&mut self, item: T) -> Result<Id<S>, AllocError>
    where
        T: Drop,
        ensures id { IfOk result (λ id. id ≡ next_id self.old) }
        ensures added { OnOk result (self.new.slots ≡ self.old.slots ++ Some item ∷ []) }
        ensures room { self.old.room ≤ self.new.room + 1 }
        ensures succeeds { 0 < self.old.room → IsOk result }
        ensures refused { OnErr result (self.new ≡ self.old) }
    {
        self.reserve(1)?;
        Ok(self.alloc_reserved(item))
    }

    /// Adds an item that is made from its own id, and gives that id.
    ///
    /// # Errors
    ///
    /// Want of memory. The arena stays as it was, and `make` is not called.
    pub fn alloc_with_id<F: FnOnce(Id<S>) -> T + Drop>(
        &mut self,
        make: F,
    ) -> Result<Id<S>, AllocError>
        requires { F.pre make (next_id self.old) }
        ensures id { IfOk result (λ id. id ≡ next_id self.old) }
        ensures added { OnOk result ((item : T) × F.post make (next_id self.old) item × (self.new.slots ≡ self.old.slots ++ Some item ∷ [])) }
        ensures room { self.old.room ≤ self.new.room + 1 }
        ensures succeeds { 0 < self.old.room → IsOk result }
        ensures refused { OnErr result (self.new ≡ self.old) }
    {
        self.reserve(1)?;
        let item = make(self.next_id());
        Ok(self.alloc_reserved(item))
    }

    /// Adds an item, with no memory to take, and gives its id. Asks for room, by `reserve`.
    pub fn alloc_reserved(&mut self, item: T) -> Id<S>
        requires { 0 < self.old.room }
        ensures id { result ≡ next_id self.old }
        ensures added { self.new.slots ≡ self.old.slots ++ Some item ∷ [] }
        ensures room { self.new.room + 1 ≡ self.old.room }
    {
        let id = self.index.len();
        self.index.push_reserved(self.live.len() as u32);
        self.live.push_reserved((id as u32, item));
        Id::from_index(id)
    }

    /// Deletes the item of a live id: it is told so by `on_delete`, and dropped. The id stays dead.
    pub fn delete(&mut self, id: Id<S>)
    where
        T: Tombstone + Drop,
        requires { IsLive self.old id }
        ensures deleted { self.new.slots ≡ slice_set self.old.slots id None }
        ensures told { IfSome (item_at self.old id) (IsTold T.told) }
        ensures room { self.old.room ≤ self.new.room }
    {
        let mut item = self.take(id);
        item.on_delete();
    }

    /// Hands out the item of a live id, which is not told that it is deleted. The id stays dead. Takes no memory.
    pub fn take(&mut self, id: Id<S>) -> T
        requires { IsLive self.old id }
        ensures item { item_at self.old id ≡ Some result }
        ensures deleted { self.new.slots ≡ slice_set self.old.slots id None }
        ensures room { self.old.room ≤ self.new.room }
    {
        let id = id.index();
        let place = self.index[id];
        let moved = last_id(self.live.as_slice()) as usize;
        self.index[moved] = place;
        self.index[id] = NOWHERE;
        let (_, item) = self.live.swap_remove(place as usize);
        item
    }

    /// The item of an id, or `None` where it is dead or was never given out.
    pub fn get(&self, id: Id<S>) -> Option<&T>
        ensures { option_copied result ≡ item_at self.now id }
    {
        match self.index.get(id.index()) {
            Some(place) => item_in(self.live.as_slice(), *place),
            None => None,
        }
    }

    /// The item of an id for writing, or `None` where it is dead or was never given out.
    pub fn get_mut(&mut self, id: Id<S>) -> Option<&mut T>
        ensures* writes_back { sem 𝓛 (lends_get T.row S.row self.entry id result) }
        ensures value { option_copied_mut result ≡ item_at self.old id }
    {
        let index = id.index();
        if self.contains(Id::from_index(index)) {
            Some(self.item_mut(index))
        } else {
            None
        }
    }

    fn item_mut(&mut self, index: usize) -> &mut T
        requires { IsLive self.old index }
        ensures* writes_back { sem 𝓛 (lends_item T.row S.row self.entry index result) }
        ensures value { item_at self.old index ≡ Some result.now }
    {
        let place = self.index[index] as usize;
        let pair = &mut self.live[place];
        &mut pair.1
    }

    /// The id that the next add gives out.
    pub fn next_id(&self) -> Id<S>
        ensures { result ≡ next_id self.now }
    {
        Id::from_index(self.index.len())
    }

    /// How many items live.
    pub fn len(&self) -> usize
        ensures { result ≡ live_count self.now }
    {
        self.live.len()
    }

    /// Whether the id's item lives.
    pub fn contains(&self, id: Id<S>) -> bool
        ensures { IsTrue result ↔ IsLive self.now id }
    {
        self.get(id).is_some()
    }

    /// The live items with their ids, by rising id.
    pub fn iter(&self) -> Iter<'_, T, S>
        ensures { result ≡ entries self.now }
    {
        Iter::new(self.live.as_slice(), self.index.as_slice())
    }

    /// The live ids, by rising id.
    pub fn ids(&self) -> Ids<'_, T, S>
        ensures { result ≡ ids self.now }
    {
        Ids::new(self.iter())
    }
}

impl<T, S> Index<Id<S>> for TombstoneArena<T, S> {
    type Output = T;

    ghost can_index = { IsLive };

    ghost index_gives = { λ a id item. item_at a id ≡ Some item };

    fn index(&self, id: Id<S>) -> &T {
        self.get(id).unwrap()
    }
}

impl<T, S> IndexMut<Id<S>> for TombstoneArena<T, S> {
    fn index_mut(&mut self, id: Id<S>) -> &mut T
        requires { IsLive self.old id }
        ensures* writes_back { sem 𝓛 (lends_item T.row S.row self.entry id result) }
        ensures value { item_at self.old id ≡ Some result.now }
    {
        self.item_mut(id.index())
    }
}
