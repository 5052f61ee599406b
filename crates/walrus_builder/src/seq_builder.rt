//! Building of sequences.
ghost use Rattle.std.specs.Prelude.{◌≡◌, ◌<◌, ◌≤◌, [], ◌∷◌, ◌++◌, length, slice_get, Some, Ok, IfOk, IfErr, OnOk, OnErr};
ghost use Rattle.std.specs.Borrow.{sem};
ghost use Rattle.std.specs.Option.{option_map};
ghost use Rattle.walrus_builder.specs.Built.{contents, empty_seq, pushes, pushes_from, inserts, back_to, Edits, EditsAt, IsBegun, IsLeft, IsRefused};
ghost use Rattle.walrus_builder.specs.Lends.{lends_instrs, lends_seq};

use std::alloc::{AllocError, Global};
use std::marker::Model;
use walrus_arena::InstrSeqId;
use walrus_walks::insert_at;
use walrus_walks::instr::{Instr, InstrLocId, InstrSeq, InstrSeqType, Value};

/// The sequences of a body, one of which is at hand: what is called adds to that one.
#[derive(Drop)]
pub struct InstrSeqBuilder {
    alloc: Global,
    pub(crate) seqs: Vec<InstrSeq>,
    id: InstrSeqId,
}

impl Model for InstrSeqBuilder {
    ghost use Rattle.std.specs.Prelude.{◌<◌, length};
    ghost use Rattle.walrus_builder.specs.Built.{Building};

    ghost Value = { Building };

    ghost view = { λ b. record { id = b.id; seqs = b.seqs.items } };

    ghost invariant = { λ b. b.id < length b.seqs.items };
}

// Room for sequences that is asked for where there is more than the first: most functions that have some have several.
const SOME: usize = 8;

impl InstrSeqBuilder {
    /// One empty sequence of this type, at hand.
    ///
    /// # Errors
    ///
    /// Want of memory.
    pub(crate) fn new(alloc: Global, ty: InstrSeqType) -> Result<Self, AllocError>
        ensures { IfOk result (λ b. contents b ≡ empty_seq 0 ty ∷ []) }
    {
        let id = InstrSeqId::from_index(0);
        let mut seqs = Vec::with_capacity(alloc, 1)?;
        seqs.push(InstrSeq::new(alloc, id, ty))?;
        Ok(InstrSeqBuilder { alloc, seqs, id })
    }

    /// All sequences, by id.
    pub fn seqs(&self) -> &[InstrSeq]
        ensures { result.now ≡ self.now.seqs }
    {
        self.seqs.as_slice()
    }

    /// The instructions of the sequence at hand, with their locations.
    pub fn instrs(&self) -> &[(Instr, InstrLocId)]
        ensures { option_map (λ s. s.instrs) (slice_get (contents self.now) self.now.id) ≡ Some result.now }
    {
        self.seqs[self.id.index()].instrs.as_slice()
    }

    /// The instructions of the sequence at hand, with their locations, for writing.
    pub fn instrs_mut(&mut self) -> &mut Vec<(Instr, InstrLocId)>
        ensures* writes_back { sem 𝓛 (lends_instrs self.entry result) }
        ensures value { option_map (λ s. s.instrs) (slice_get (contents self.old) self.old.id) ≡ Some result.now.items }
    {
        let seq = &mut self.seqs[self.id.index()];
        &mut seq.instrs
    }

    // A sequence of a known id, for writing.
    pub(crate) fn seq_mut(&mut self, id: InstrSeqId) -> &mut InstrSeq
        requires { id < length self.old.seqs }
        ensures* writes_back { sem 𝓛 (lends_seq self.entry id result) }
        ensures value { slice_get self.old.seqs id ≡ Some result.now }
    {
        &mut self.seqs[id.index()]
    }

    // Gives back the room that the list has to spare.
    pub(crate) fn shrink_to_fit(&mut self)
        ensures id { self.new.id ≡ self.old.id }
        ensures seqs { self.new.seqs ≡ self.old.seqs }
    {
        self.seqs.shrink_to_fit();
    }

    // Takes the body's own sequence at hand.
    pub(crate) fn go_to_body(&mut self)
        ensures id { self.new.id ≡ 0 }
        ensures seqs { self.new.seqs ≡ self.old.seqs }
    {
        self.id = InstrSeqId::from_index(0);
    }

    // Takes another sequence at hand.
    pub(crate) fn go_to(&mut self, id: InstrSeqId)
        requires { id < length self.old.seqs }
        ensures id { self.new.id ≡ id }
        ensures seqs { self.new.seqs ≡ self.old.seqs }
    {
        self.id = id;
    }

    /// The id of the sequence at hand.
    pub fn id(&self) -> InstrSeqId
        ensures id { result ≡ self.now.id }
        ensures known { result < length self.now.seqs }
    {
        self.id
    }

    /// Appends an instruction without a location.
    ///
    /// # Errors
    ///
    /// Want of memory. The sequences stay as they were, and the instruction is dropped.
    pub fn instr(&mut self, instr: Instr) -> Result<(), AllocError>
        ensures { Edits self.old (pushes instr) result self.new }
    {
        self.instr_with_location(instr, InstrLocId::default())
    }

    /// Appends an instruction with the location that it is from.
    ///
    /// # Errors
    ///
    /// Want of memory. The sequences stay as they were, and the instruction is dropped.
    pub fn instr_with_location(
        &mut self,
        instr: Instr,
        location: InstrLocId,
    ) -> Result<(), AllocError>
        ensures { Edits self.old (pushes_from location instr) result self.new }
    {
        let seq = &mut self.seqs[self.id.index()];
        seq.instrs.push((instr, location))?;
        Ok(())
    }

    /// Inserts an instruction without a location. Asks for a position at most the sequence's length.
    ///
    /// # Errors
    ///
    /// Want of memory. The sequences stay as they were, and the instruction is dropped.
    pub fn instr_at(&mut self, position: usize, instr: Instr) -> Result<(), AllocError>
        requires { (s : _) → slice_get (contents self.old) self.old.id ≡ Some s → position ≤ length s.instrs }
        ensures { Edits self.old (inserts position instr) result self.new }
    {
        let seq = &mut self.seqs[self.id.index()];
        insert_at(&mut seq.instrs, position, instr)?;
        Ok(())
    }

    // Adds an empty sequence and gives its id.
    #[inline(always)]
    pub(crate) fn add_seq(&mut self, ty: InstrSeqType) -> Result<InstrSeqId, AllocError>
        ensures id { self.new.id ≡ self.old.id }
        ensures added { IfOk result (λ id. (id ≡ length (contents self.old)) × (contents self.new ≡ contents self.old ++ empty_seq id ty ∷ [])) }
        ensures refused { OnErr result (contents self.new ≡ contents self.old) }
    {
        if self.seqs.len() > u32::MAX as usize {
            return Err(AllocError);
        }
        let id = InstrSeqId::from_index(self.seqs.len());
        if self.seqs.capacity() < SOME {
            self.seqs.reserve(SOME)?;
        }
        self.seqs.push(InstrSeq::new(self.alloc, id, ty))?;
        Ok(id)
    }

    // Adds an empty sequence, and takes it at hand.
    fn begin_seq(&mut self, ty: InstrSeqType) -> Result<InstrSeqId, AllocError>
        ensures begun { IfOk result (λ id. (id ≡ length (contents self.old)) × IsBegun (contents self.old) ty self.new) }
        ensures id { OnErr result (self.new.id ≡ self.old.id) }
        ensures refused { OnErr result (contents self.new ≡ contents self.old) }
    {
        let id = self.add_seq(ty)?;
        self.go_to(id);
        Ok(id)
    }

    // Takes the outer sequence at hand again: what a closure put in place may have none of that id.
    fn go_back(&mut self, outer: InstrSeqId)
        ensures id { self.new.id ≡ back_to outer self.old }
        ensures seqs { self.new.seqs ≡ self.old.seqs }
    {
        if outer.index() < self.seqs.len() {
            self.id = outer;
        }
    }

    // Adds a sequence and has it filled, then goes back to the outer one.
    pub(crate) fn fill_seq<F: FnOnce(&mut InstrSeqBuilder) -> Result<(), AllocError>>(
        &mut self,
        outer: InstrSeqId,
        ty: InstrSeqType,
        make: F,
    ) -> Result<InstrSeqId, AllocError>
        requires callable { F.IsAlwaysCallable make }
        ensures filled { IfOk result (λ id. (id ≡ length (contents self.old)) × IsLeft F.FnOnce make (contents self.old) ty outer (Ok tt) self.new) }
        ensures refused { IfErr result (λ _. IsRefused F.FnOnce make ty outer self.old self.new) }
    {
        let id = self.begin_seq(ty)?;
        let made = make(self);
        self.go_back(outer);
        made?;
        Ok(id)
    }

    // Appends an instruction to the outer sequence, which is at hand if it is there.
    pub(crate) fn instr_in(&mut self, outer: InstrSeqId, instr: Instr) -> Result<(), AllocError>
        requires { outer < length self.old.seqs → self.old.id ≡ outer }
        ensures { EditsAt self.old outer (pushes instr) result self.new }
    {
        if self.id() == outer {
            self.instr(instr)?;
        }
        Ok(())
    }

    // Inserts an instruction at a position, and at the end if that is past it.
    fn insert_here(&mut self, position: usize, instr: Instr) -> Result<(), AllocError>
        ensures { Edits self.old (inserts position instr) result self.new }
    {
        let within = position.min(self.instrs().len());
        self.instr_at(within, instr)
    }

    // Inserts an instruction into the outer sequence, which is at hand if it is there.
    pub(crate) fn instr_at_in(
        &mut self,
        outer: InstrSeqId,
        position: usize,
        instr: Instr,
    ) -> Result<(), AllocError>
        requires { outer < length self.old.seqs → self.old.id ≡ outer }
        ensures { EditsAt self.old outer (inserts position instr) result self.new }
    {
        if self.id() == outer {
            self.insert_here(position, instr)?;
        }
        Ok(())
    }
}
