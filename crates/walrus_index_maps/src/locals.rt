//! The numbers that locals are written as.
ghost use Rattle.std.specs.Prelude.{◌≡◌, ◌<◌, ◌^◌, ℕ, length, None, OnOk, OnErr};
ghost use Rattle.std.specs.BTreeMap.{get};
ghost use Rattle.walrus_index_maps.specs.Maps.{with_local};
ghost use Rattle.walrus_index_maps.specs.Views.{key_cmp, local_numbers};

use std::alloc::{AllocError, Global};
use std::collections::BTreeMap;
use walrus_arena::{FunctionId, LocalId};

// What a function said of a local.
#[derive(Clone, Copy)]
pub(crate) struct Said {
    function: u32,
    number: u32,
}

/// The numbers of locals, in each function its own. It takes memory by the highest id that has one.
///
/// A local belongs to one function as a rule. So what the last function said of it is found by its number alone, in constant
/// time, and only what others said before is looked for.
#[derive(Drop)]
pub(crate) struct LocalNumbers {
    // By the local's number.
    last: Vec<Option<Said>>,
    // By the numbers of function and local.
    earlier: BTreeMap<(u32, u32), u32>,
}

impl LocalNumbers {
    /// No local has a number. Takes no memory.
    pub(crate) fn new(alloc: Global) -> Self
        ensures { local_numbers result ≡ (λ _ _. None) }
    {
        LocalNumbers {
            last: Vec::new(alloc),
            earlier: BTreeMap::new(alloc),
        }
    }

    /// The number of a local in a function, if it has one there.
    pub(crate) fn get(&self, function: FunctionId, id: LocalId) -> Option<u32>
        ensures { result ≡ local_numbers self.now function id }
    {
        let function = function.number();
        let local = id.number();
        if let Some(Some(said)) = self.last.get(local as usize)
            && said.function == function
        {
            return Some(said.number);
        }
        self.earlier.get(&(function, local)).copied()
    }

    /// Gives a local this number in a function, in place of the one that it had there.
    ///
    /// # Errors
    ///
    /// Want of memory. The numbers stay as they were.
    pub(crate) fn set(
        &mut self,
        function: FunctionId,
        id: LocalId,
        number: u32,
    ) -> Result<(), AllocError>
        ensures set { OnOk result (local_numbers self.new ≡ with_local function id number (local_numbers self.old)) }
        ensures refused { OnErr result (local_numbers self.new ≡ local_numbers self.old) }
    {
        let at = id.number() as usize;
        let function = function.number();
        self.reach(at)?;
        self.keep(at, function)?;
        self.last[at] = Some(Said { function, number });
        Ok(())
    }

    // Has a place for the local of this number.
    fn reach(&mut self, at: usize) -> Result<(), AllocError>
        requires { at < 2 ^ 32 }
        ensures place { OnOk result (at < length self.new.last.items) }
        ensures same { local_numbers self.new ≡ local_numbers self.old }
    {
        let len = self.last.len();
        if len <= at {
            self.last.resize(at + 1, None)?;
        }
        Ok(())
    }

    // Has what functions but this one said of a local among what was said before.
    fn keep(&mut self, at: usize, function: u32) -> Result<(), AllocError>
        requires known { at < length self.old.last.items }
        requires number { at < 2 ^ 32 }
        ensures kept { OnOk result ((other : ℕ) → (other ≡ function → ⊥) → local_numbers self.new other at ≡ get key_cmp self.new.earlier (other, at)) }
        ensures last { self.new.last ≡ self.old.last }
        ensures same { local_numbers self.new ≡ local_numbers self.old }
    {
        if let Some(said) = self.last[at]
            && said.function != function
        {
            self.earlier
                .insert((said.function, at as u32), said.number)?;
        }
        Ok(())
    }
}
