//! Ids by index, most of which follow each other.
ghost use Rattle.std.specs.Prelude.{◌≡◌, [], ◌∷◌, ◌++◌, length, take, slice_get, MatchResult};

use std::alloc::{AllocError, Global};
use std::marker::Model;
use walrus_arena::Id;

/// A list of ids. Those at its beginning that follow each other are a number and a count: they take no memory, and none is looked up.
/// As a module is read, it gives its items ids that follow each other, space by space.
#[derive(Drop)]
pub(crate) struct IdList<S> {
    // The number of the first id, and how many follow each other from it on.
    first: u32,
    run: u32,
    // The ids behind those.
    rest: Vec<Id<S>>,
}

impl<S> Model for IdList<S> {
    ghost use Rattle.std.specs.Prelude.{ℕ, ◌≤◌, ◌+◌, ◌^◌, List, ◌++◌};
    ghost use Rattle.walrus_index_maps.specs.Runs.{run_from};

    ghost Value = { List ℕ };

    ghost view = { λ l. run_from l.first l.run ++ l.rest.items };

    ghost invariant = { λ l. l.first + l.run ≤ 2 ^ 32 };
}

// The id at a place in a list.
#[inline(always)]
fn id_in<S>(list: &[Id<S>], at: usize) -> Option<Id<S>>
    ensures { result ≡ slice_get list.now at }
{
    list.get(at).copied()
}

impl<S> IdList<S> {
    /// No ids. Takes no memory.
    pub(crate) fn new(alloc: Global) -> Self
        ensures { result ≡ [] }
    {
        IdList {
            first: 0,
            run: 0,
            rest: Vec::new(alloc),
        }
    }

    /// Appends an id, and gives its index. A list of 2^32 ids can't hold another.
    #[tactic(auto, using(crate::proofs::RunLemmas::run_length))]
    pub(crate) fn push(&mut self, id: Id<S>) -> Result<u32, AllocError>
        ensures { MatchResult result (λ index. (index ≡ length self.old) × (self.new ≡ self.old ++ id ∷ [])) (λ _. self.new ≡ self.old) }
    {
        let number = id.number();
        if self.rest.is_empty() {
            if self.run == 0 {
                self.first = number;
                self.run = 1;
                return Ok(0);
            }
            let next = u64::from(self.first) + u64::from(self.run);
            if self.run < u32::MAX && next == u64::from(number) {
                self.run += 1;
                return Ok(self.run - 1);
            }
        }
        let index = self.run as usize + self.rest.len();
        if index > u32::MAX as usize {
            return Err(AllocError);
        }
        self.rest.push(Id::from_index(number as usize))?;
        Ok(index as u32)
    }

    /// The id at this index.
    #[inline(always)]
    pub(crate) fn get(&self, index: u32) -> Option<Id<S>>
        ensures { result ≡ slice_get self.now index }
    {
        if index < self.run {
            return Some(Id::from_index((self.first + index) as usize));
        }
        id_in(self.rest.as_slice(), (index - self.run) as usize)
    }

    /// How many ids it has.
    #[tactic(auto, using(crate::proofs::RunLemmas::run_length))]
    pub(crate) fn len(&self) -> usize
        ensures { result ≡ length self.now }
    {
        self.run as usize + self.rest.len()
    }

    /// Drops the ids behind the first so many.
    pub(crate) fn truncate(&mut self, count: usize)
        ensures { self.new ≡ take count self.old }
    {
        let run = self.run as usize;
        if count < run {
            self.run = count as u32;
            self.rest.truncate(0);
        } else {
            self.rest.truncate(count - run);
        }
    }
}
