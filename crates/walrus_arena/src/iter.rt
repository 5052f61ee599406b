//! The iterators of an arena. Each goes by rising id.
ghost use Rattle.std.specs.Prelude.{◌≡◌, ◌+◌, ◌<◌, ◌^◌, map, length};
ghost use Rattle.std.specs.Iterator.{YieldsFirst, YieldsFirstBy, item_count};
ghost use Rattle.walrus_arena.specs.Arena.{entries_from};
ghost use Rattle.walrus_arena.specs.Dense.{slots_of};

use crate::id::Id;
use crate::live::item_in;
use std::marker::{Model, PhantomData};

/// The live items of an arena with their ids, seen as the list of those that are left.
#[derive(Drop)]
pub struct Iter<'a, T, S> {
    // The live items with their ids.
    live: &'a [(u32, T)],
    // By id, the place of its item in `live`, of the ids that are left.
    index: &'a [u32],
    // The first of these ids.
    next: usize,
    space: PhantomData<S>,
}

impl<'a, T, S> Model for Iter<'a, T, S> {
    ghost use Rattle.std.specs.Prelude.{ℕ, List, ◌+◌, ◌<◌, ◌^◌, length};
    ghost use Rattle.walrus_arena.specs.Arena.{entries_from};
    ghost use Rattle.walrus_arena.specs.Dense.{slots_of};

    ghost Value = { List (ℕ × T) };

    ghost view = { λ it. entries_from it.next (slots_of it.live.now it.index.now) };

    ghost invariant = { λ it. it.next + length it.index.now < 2 ^ 32 };
}

impl<'a, T, S> Iter<'a, T, S> {
    // The live items of an arena that keeps them so.
    pub(crate) fn new(live: &'a [(u32, T)], index: &'a [u32]) -> Self
        requires { length index.now < 2 ^ 32 }
        ensures { result ≡ entries_from 0 (slots_of live.now index.now) }
    {
        Iter {
            live,
            index,
            next: 0,
            space: PhantomData,
        }
    }
}

impl<'a, T, S> Iterator for Iter<'a, T, S> {
    type Item = (Id<S>, &'a T);

    ghost next_gives = { YieldsFirstBy (λ item. (item.0, item.1.now)) (λ rest. rest) };

    ghost remaining = { item_count (λ rest. rest) };

    fn next(&mut self) -> Option<(Id<S>, &'a T)> {
        while let Some((place, rest)) = self.index.split_first() {
            let id = self.next;
            self.index = rest;
            self.next += 1;
            if let Some(item) = item_in(self.live, *place) {
                return Some((Id::from_index(id), item));
            }
        }
        None
    }
}

/// The live ids of an arena, seen as the list of those that are left.
#[derive(Drop)]
pub struct Ids<'a, T, S> {
    items: Iter<'a, T, S>,
}

impl<'a, T, S> Model for Ids<'a, T, S> {
    ghost use Rattle.std.specs.Prelude.{ℕ, List, map};

    ghost Value = { List ℕ };

    ghost view = { λ it. map (λ e. e.0) it.items };
}

impl<'a, T, S> Ids<'a, T, S> {
    pub(crate) fn new(items: Iter<'a, T, S>) -> Self
        ensures { result ≡ map (λ e. e.0) items.entry }
    {
        Ids { items }
    }
}

impl<'a, T, S> Iterator for Ids<'a, T, S> {
    type Item = Id<S>;

    ghost next_gives = { YieldsFirst (λ rest. rest) };

    ghost remaining = { item_count (λ rest. rest) };

    fn next(&mut self) -> Option<Id<S>> {
        match self.items.next() {
            Some((id, _)) => Some(id),
            None => None,
        }
    }
}
