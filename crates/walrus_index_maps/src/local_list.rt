//! The locals of a function by index, of which only some have ids.
ghost use Rattle.std.specs.Prelude.{ℕ, ◌≡◌, ◌∷◌, ◌++◌, [], length, take, replicate, slice_get, MatchResult, OnOk, OnErr};
ghost use Rattle.walrus_index_maps.specs.Runs.{IsRising, named_in, nowhere};

use std::alloc::{AllocError, Global};
use std::marker::Model;
use walrus_arena::{Id, LocalId};

/// The ids that the indices of a function's locals name. Those at its beginning that follow each other are a number and a count, and
/// indices that name no local are a count: both take no memory, and the first are found without a search.
#[derive(Drop)]
pub(crate) struct LocalList {
    // The number of the first id, and how many follow each other from it on.
    first: u32,
    run: u32,
    // How many indices there are.
    count: u32,
    // Of the indices behind the run those that name a local, by rising index, with the number of its id.
    rest: Vec<(u32, u32)>,
}

impl Model for LocalList {
    ghost use Rattle.std.specs.Prelude.{ℕ, ◌≤◌, ◌+◌, ◌-◌, ◌^◌, List, ◌++◌};
    ghost use Rattle.walrus_index_maps.specs.Runs.{IsRising, run_from, spread};

    ghost Value = { List ℕ };

    ghost view = { λ l. run_from l.first l.run ++ spread l.run (l.count - l.run) l.rest.items };

    ghost invariant = { λ l. record {
      fits : l.first + l.run ≤ 2 ^ 32;
      rising : IsRising l.run l.count l.rest.items;
    } };
}

impl LocalList {
    /// No indices. Takes no memory.
    pub(crate) fn new(alloc: Global) -> Self
        ensures { result ≡ [] }
    {
        LocalList {
            first: 0,
            run: 0,
            count: 0,
            rest: Vec::new(alloc),
        }
    }

    /// The next index names this id. Gives the index. There are less than 2^32 indices.
    pub(crate) fn push(&mut self, id: LocalId) -> Result<u32, AllocError>
        ensures { MatchResult result (λ index. (index ≡ length self.old) × (self.new ≡ self.old ++ id ∷ [])) (λ _. self.new ≡ self.old) }
    {
        let index = self.count;
        if index == u32::MAX {
            return Err(AllocError);
        }
        let number = id.number();
        if index == 0 {
            self.first = number;
            self.run = 1;
            self.count = 1;
            return Ok(0);
        }
        let next = u64::from(self.first) + u64::from(self.run);
        if self.run == index && next == u64::from(number) {
            self.run += 1;
            self.count += 1;
            return Ok(index);
        }
        self.rest.push((index, number))?;
        self.count += 1;
        Ok(index)
    }

    /// The next so many indices name no local. There are less than 2^32 indices.
    pub(crate) fn skip(&mut self, more: usize) -> Result<(), AllocError>
        ensures skipped { OnOk result (self.new ≡ self.old ++ replicate more nowhere) }
        ensures refused { OnErr result (self.new ≡ self.old) }
    {
        let left = (u32::MAX - self.count) as usize;
        if more > left {
            return Err(AllocError);
        }
        self.count += more as u32;
        Ok(())
    }

    /// The id that this index names.
    #[inline(always)]
    pub(crate) fn get(&self, index: u32) -> Option<LocalId>
        ensures { result ≡ slice_get self.now index }
    {
        if index < self.run {
            return Some(Id::from_index((self.first + index) as usize));
        }
        if index < self.count {
            return Some(id_of(self.rest.as_slice(), index));
        }
        None
    }

    /// How many indices it has.
    pub(crate) fn len(&self) -> usize
        ensures { result ≡ length self.now }
    {
        self.count as usize
    }

    /// Drops the indices behind the first so many.
    pub(crate) fn truncate(&mut self, count: usize)
        ensures { self.new ≡ take count self.old }
    {
        if count < self.run as usize {
            self.run = count as u32;
            self.count = count as u32;
            self.rest.truncate(0);
        } else if count < self.count as usize {
            let end = count as u32;
            self.count = end;
            self.rest.retain(|named| named.0 < end);
        }
    }
}

// The id that this index names.
#[inline(never)]
fn id_of(named: &[(u32, u32)], index: u32) -> LocalId
    requires { (least : ℕ) × (past : ℕ) × IsRising least past named.now }
    ensures { result ≡ named_in index named.now }
{
    match named.binary_search_by_key(&index, |&(at, _)| at) {
        Ok(at) => Id::from_index(named[at].1 as usize),
        Err(_) => Id::from_index(u32::MAX as usize),
    }
}
