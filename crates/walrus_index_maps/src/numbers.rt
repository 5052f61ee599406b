//! The numbers that ids of one space are written as.
ghost use Rattle.std.specs.Prelude.{◌≡◌, ◌<◌, ◌^◌, length, None, IfOk, OnOk, OnErr};
ghost use Rattle.walrus_index_maps.specs.Maps.{unnumbered, numbered, next_numbered};
ghost use Rattle.walrus_index_maps.specs.Views.{numbering};

use std::alloc::{AllocError, Global};
use std::marker::PhantomData;
use walrus_arena::Id;

/// Numbers of ids of the space `S`. It takes memory by the highest id that has one.
#[derive(Drop)]
pub struct Numbers<S> {
    // By the id's own number.
    numbers: Vec<Option<u32>>,
    given: u64,
    space: PhantomData<S>,
}

impl<S> Numbers<S> {
    /// No id has a number. Takes no memory.
    pub fn new(alloc: Global) -> Self
        ensures { numbering result ≡ unnumbered }
    {
        Numbers {
            numbers: Vec::new(alloc),
            given: 0,
            space: PhantomData,
        }
    }

    /// The number of an id, if it has one.
    pub fn get(&self, id: Id<S>) -> Option<u32>
        ensures { result ≡ (numbering self.now).number id }
    {
        match self.numbers.get(id.index()) {
            Some(number) => *number,
            None => None,
        }
    }

    /// Gives an id the next number: the count of those given so before. Asks that it has none, and that fewer than 2^32 were given.
    ///
    /// # Errors
    ///
    /// Want of memory. The numbers stay as they were.
    pub fn push(&mut self, id: Id<S>) -> Result<u32, AllocError>
        requires is_new { (numbering self.old).number id ≡ None }
        requires room { (numbering self.old).given < 2 ^ 32 }
        ensures given { IfOk result (λ number. (number ≡ (numbering self.old).given) × (numbering self.new ≡ next_numbered id (numbering self.old))) }
        ensures refused { OnErr result (numbering self.new ≡ numbering self.old) }
    {
        let number = self.given as u32;
        self.set(id, number)?;
        self.given += 1;
        Ok(number)
    }

    /// Gives an id this number, in place of the one that it had.
    ///
    /// # Errors
    ///
    /// Want of memory. The numbers stay as they were.
    pub fn set(&mut self, id: Id<S>, number: u32) -> Result<(), AllocError>
        ensures set { OnOk result (numbering self.new ≡ numbered id number (numbering self.old)) }
        ensures refused { OnErr result (numbering self.new ≡ numbering self.old) }
    {
        let at = id.number() as usize;
        self.reach(at)?;
        self.numbers[at] = Some(number);
        Ok(())
    }

    // Has a place for the id of this number.
    fn reach(&mut self, at: usize) -> Result<(), AllocError>
        requires { at < 2 ^ 32 }
        ensures place { OnOk result (at < length self.new.numbers.items) }
        ensures same { numbering self.new ≡ numbering self.old }
    {
        let len = self.numbers.len();
        if len <= at {
            self.numbers.resize(at + 1, None)?;
        }
        Ok(())
    }
}
