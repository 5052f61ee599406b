//! A pile, whose top is taken first.

ghost use Rattle.std.specs.Prelude.{◌≡◌, ◌<◌, [], ◌∷◌, MatchOption, OnOk, OnErr, length, slice_get};
ghost use Rattle.std.specs.Vec.{vec_len, vec_capacity};

use std::alloc::{AllocError, Global};
use std::marker::Model;
use std::mem;

/// Items, of which the last is taken first. Contracts see that one first.
#[derive(Drop)]
pub(crate) struct Pile<T> {
    items: Vec<T>,
}

impl<T> Model for Pile<T> {
    ghost use Rattle.std.specs.Prelude.{List, reverse};
    ghost use Rattle.std.specs.Coded.{coded_list};

    ghost Value = { List T };

    ghost coded = { coded_list T.code };

    ghost view = { λ p. reverse p.items.items };
}

// Room for so many items is kept in any case.
const ROOM: usize = 512;

// Growth stands apart, so that what is inlined stays small.
#[inline(never)]
fn grow<T>(items: &mut Vec<T>) -> Result<(), AllocError>
    ensures room { OnOk result (vec_len items.new < vec_capacity items.new) }
    ensures rest { items.new.items ≡ items.old.items }
{
    items.reserve(1)
}

impl<T: Drop> Pile<T> {
    /// None. Takes no memory.
    pub(crate) fn new(alloc: Global) -> Self
        ensures { result ≡ [] }
    {
        Pile {
            items: Vec::new(alloc),
        }
    }

    /// How many there are.
    #[inline(always)]
    pub(crate) fn len(&self) -> usize
        ensures { result ≡ length self.now }
    {
        self.items.len()
    }

    /// Puts this on top.
    #[inline(always)]
    pub(crate) fn push(&mut self, item: T) -> Result<(), AllocError>
        ensures pushed { OnOk result (self.new ≡ item ∷ self.old) }
        ensures refused { OnErr result (self.new ≡ self.old) }
    {
        if self.items.len() == self.items.capacity() {
            grow(&mut self.items)?;
        }
        self.items.push_reserved(item);
        Ok(())
    }

    /// Takes the top.
    pub(crate) fn pop(&mut self) -> Option<T>
        ensures { MatchOption result ((self.old ≡ []) × (self.new ≡ [])) (λ top. self.old ≡ top ∷ self.new) }
    {
        self.items.pop()
    }

    /// Puts what is there on top, and this in its place.
    pub(crate) fn push_from(&mut self, place: &mut T, next: T) -> Result<(), AllocError>
        ensures pushed { OnOk result ((self.new ≡ place.old ∷ self.old) × (place.new ≡ next)) }
        ensures refused { OnErr result ((self.new ≡ self.old) × (place.new ≡ place.old)) }
    {
        self.items.reserve(1)?;
        let item = mem::replace(place, next);
        self.items.push_reserved(item);
        Ok(())
    }

    /// Gives up room where there is more of it than an eighth of the items. Half of that is left: a number of items in proportion has to be
    /// taken or pushed before the next move, so that giving up and growing again take time in proportion to these.
    pub(crate) fn give_up(&mut self)
        ensures { self.new ≡ self.old }
    {
        let count = self.items.len();
        let room = self.items.capacity().saturating_sub(count);
        if room > (count / 8).saturating_add(ROOM) {
            self.items.shrink_to(count.saturating_add(count / 16));
        }
    }
}

impl<T: Copy + Drop> Pile<T> {
    /// Puts a copy of this on top. Where there is room for it first, it is copied at once, not part by part.
    #[inline(always)]
    pub(crate) fn push_copy(&mut self, item: &T) -> Result<(), AllocError>
        ensures pushed { OnOk result (self.new ≡ item.now ∷ self.old) }
        ensures refused { OnErr result (self.new ≡ self.old) }
    {
        if self.items.len() == self.items.capacity() {
            grow(&mut self.items)?;
        }
        self.items.push_reserved(*item);
        Ok(())
    }

    /// The item that lies below so many others.
    #[inline(always)]
    pub(crate) fn at(&self, depth: usize) -> Option<T>
        ensures { result ≡ slice_get self.now depth }
    {
        let count = self.items.len();
        if depth < count {
            return Some(self.items[count - 1 - depth]);
        }
        None
    }
}
