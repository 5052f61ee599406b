//! The iterator over the items of a collection.
ghost use Rattle.std.specs.Prelude.{◌≡◌, map};
ghost use Rattle.std.specs.Iterator.{YieldsFirstBy, item_count};

use std::marker::Model;
use walrus_arena::Iter;

/// The live items of a collection by rising id, seen as the list of those that are left.
#[derive(Drop)]
pub struct Items<'a, T, S> {
    items: Iter<'a, T, S>,
}

impl<'a, T, S> Model for Items<'a, T, S> {
    ghost use Rattle.std.specs.Prelude.{List, map};

    ghost Value = { List T };

    ghost view = { λ it. map (λ e. e.1) it.items };
}

impl<'a, T, S> Items<'a, T, S> {
    pub(crate) fn new(items: Iter<'a, T, S>) -> Self
        ensures { result ≡ map (λ e. e.1) items.entry }
    {
        Items { items }
    }
}

impl<'a, T, S> Iterator for Items<'a, T, S> {
    type Item = &'a T;

    ghost next_gives = { YieldsFirstBy (λ item. item.now) (λ rest. rest) };

    ghost remaining = { item_count (λ rest. rest) };

    fn next(&mut self) -> Option<&'a T> {
        match self.items.next() {
            Some((_, item)) => Some(item),
            None => None,
        }
    }
}
