//! Items that are claimed.
ghost use Rattle.std.specs.Prelude.{◌≡◌, [], IfOk, OnOk, length, replicate};
ghost use Rattle.walrus_marks.specs.Claims.{IsAdded};
ghost use Rattle.walrus_marks.specs.Marks.{is_claimed};

use std::alloc::{AllocError, Global};
use std::collections::HashSet;
use std::marker::Model;
use walrus_roots::Item;

/// Items of which it is asked whether one was met, though they may have no flags.
#[derive(Drop)]
pub struct Claims {
    // By the number of the space, ids.
    sets: Vec<HashSet<u32>>,
}

impl Model for Claims {
    ghost use Rattle.std.specs.Prelude.{ℕ, List};
    ghost use Rattle.walrus_marks.specs.Claims.{ids_of};

    ghost Value = { List (List ℕ) };

    ghost view = { λ c. ids_of c.sets.items };
}

impl Claims {
    /// No items, and none can be added. Takes no memory.
    pub fn none(alloc: Global) -> Self
        ensures { result ≡ [] }
    {
        Claims {
            sets: Vec::new(alloc),
        }
    }

    /// No items.
    ///
    /// # Errors
    ///
    /// Want of memory.
    pub fn new(alloc: Global) -> Result<Self, AllocError>
        ensures { IfOk result (λ c. c ≡ replicate 10 []) }
    {
        let spaces: usize = 10;
        let mut sets = Vec::new(alloc);
        for _ in 0..spaces {
            sets.push(HashSet::new(alloc))?;
        }
        Ok(Claims { sets })
    }

    /// Adds an item. Asks that the claims were not made by `none`.
    ///
    /// # Errors
    ///
    /// Want of memory.
    pub fn add(&mut self, item: Item) -> Result<(), AllocError>
        requires { length self.old ≡ 10 }
        ensures { OnOk result (IsAdded self.old «item» self.new) }
    {
        self.sets[item.space_number()].insert(item.id)?;
        Ok(())
    }

    /// Whether the item is one of them.
    pub fn contains(&self, item: Item) -> bool
        ensures { result ≡ is_claimed self.now «item» }
    {
        match self.sets.get(item.space_number()) {
            Some(set) => set.contains(&item.id),
            None => false,
        }
    }
}
