//! Sequences of instructions, their block types and locations.
ghost use Rattle.std.specs.Prelude.{◌≡◌, ◌==◌, ◌<◌, [], IfOk, OnErr, Some};
ghost use Rattle.std.specs.Borrow.{sem};
ghost use Rattle.walrus_instr.specs.BlockTypes.{short_form, picked, Makes};
ghost use Rattle.walrus_instr.specs.Copies.{IsSeqCopy};
ghost use Rattle.walrus_instr.specs.Lends.{lends_instrs};
ghost use Rattle.walrus_instr.specs.declared.seq.InstrSeqType.TheVariants.{Simple, MultiValue};

use crate::instr::Instr;
use crate::seq_type::SeqType;
use std::alloc::{AllocError, Global};
use std::ops::{Deref, DerefMut};
use walrus_types::arena::{InstrSeqId, TypeId};
use walrus_types::{ModuleTypes, ValType};

/// Where an instruction stood in the file that it was read from, as the reader of that file numbers places.
#[derive(Clone, Copy, Debug, PartialEq, Eq, PartialOrd, Ord, Hash)]
pub struct InstrLocId(u32);

impl InstrLocId {
    /// A location. Asks for less than 4294967295, which stands for none.
    pub fn new(data: u32) -> Self
        requires { «data» < 4294967295 }
        ensures { result ≡ record { 0 = «data» } }
    {
        InstrLocId(data)
    }

    /// Whether it stands for no location.
    pub fn is_default(&self) -> bool
        ensures { result ≡ (self.now.0 == 4294967295) }
    {
        self.0 == u32::MAX
    }

    /// The number of the location.
    pub fn data(&self) -> u32
        ensures { result ≡ self.now.0 }
    {
        self.0
    }
}

impl Default for InstrLocId {
    /// No location.
    fn default() -> Self
        ensures { result ≡ record { 0 = 4294967295 } }
    {
        InstrLocId(u32::MAX)
    }
}

/// The type of a block (Core Specification, block types).
#[derive(Clone, Copy, PartialEq, Eq)]
pub enum InstrSeqType {
    /// No parameters, and at most one result.
    Simple(Option<ValType>),
    /// The parameters and results of a function type.
    MultiValue(TypeId),
}

impl From<Option<ValType>> for InstrSeqType {
    ghost from_gives = { λ ty answer. answer ≡ Simple ty };

    fn from(ty: Option<ValType>) -> Self {
        InstrSeqType::Simple(ty)
    }
}

impl From<ValType> for InstrSeqType {
    ghost from_gives = { λ ty answer. answer ≡ Simple (Some ty) };

    fn from(ty: ValType) -> Self {
        InstrSeqType::Simple(Some(ty))
    }
}

impl From<TypeId> for InstrSeqType {
    ghost from_gives = { λ id answer. answer ≡ MultiValue id };

    fn from(id: TypeId) -> Self {
        InstrSeqType::MultiValue(id)
    }
}

impl InstrSeqType {
    // The short form, where these lists have one.
    fn short(params: &[ValType], results: &[ValType]) -> Option<Self>
        ensures { result ≡ short_form params.now results.now }
    {
        match (params, results) {
            ([], []) => Some(InstrSeqType::Simple(None)),
            ([], [ty]) => Some(InstrSeqType::Simple(Some(*ty))),
            _ => None,
        }
    }

    /// The block type of these parameters and results: the short one, where there are no parameters and at
    /// most one result, or else that of a function type, which is added where no live one is equal.
    ///
    /// # Errors
    ///
    /// Want of memory. The types stay as they were.
    pub fn new(
        types: &mut ModuleTypes,
        params: &[ValType],
        results: &[ValType],
    ) -> Result<Self, AllocError>
        ensures made { IfOk result (λ ty. Makes params.now results.now ty types.old types.new) }
        ensures refused { OnErr result (types.new ≡ types.old) }
    {
        if let Some(short) = InstrSeqType::short(params, results) {
            return Ok(short);
        }
        let ty = types.add(params, results)?;
        Ok(InstrSeqType::MultiValue(ty))
    }

    /// The block type of these parameters and results among the types as they are: the short one, where there
    /// are no parameters and at most one result, or else that of the latest final function type without
    /// supertype of just these lists, if there is one.
    pub fn existing(types: &ModuleTypes, params: &[ValType], results: &[ValType]) -> Option<Self>
        ensures { result ≡ picked params.now results.now types.now }
    {
        if let Some(short) = InstrSeqType::short(params, results) {
            return Some(short);
        }
        let ty = types.find(params, results)?;
        Some(InstrSeqType::MultiValue(ty))
    }
}

/// A sequence of instructions with their locations: a body's own, or that of a block.
#[derive(Drop)]
pub struct InstrSeq {
    id: InstrSeqId,
    /// The type of the block.
    pub ty: SeqType,
    /// Where the `end` stood.
    // It lies beside the type, which spares eight bytes.
    pub end: InstrLocId,
    /// The instructions in their order, without the `end`.
    pub instrs: Vec<(Instr, InstrLocId)>,
}

impl InstrSeq {
    /// An empty sequence of this id and type, whose `end` has no location. Takes no memory.
    pub fn new(alloc: Global, id: InstrSeqId, ty: InstrSeqType) -> Self
        ensures id { result.id ≡ id }
        ensures ty { result.ty ≡ ty }
        ensures empty { result.instrs.items ≡ [] }
        ensures end { result.end ≡ record { 0 = 4294967295 } }
    {
        InstrSeq {
            id,
            ty: SeqType::new(ty),
            instrs: Vec::new(alloc),
            end: InstrLocId::default(),
        }
    }

    /// Its id.
    pub fn id(&self) -> InstrSeqId
        ensures { result ≡ self.now.id }
    {
        self.id
    }

    /// An equal sequence, of the same id.
    ///
    /// # Errors
    ///
    /// Want of memory.
    pub fn clone(&self) -> Result<Self, AllocError>
        ensures { IfOk result (λ copy. IsSeqCopy self.now copy) }
    {
        let mut instrs = Vec::new(*self.instrs.allocator());
        for (instr, place) in self.instrs.iter() {
            instrs.push((instr.clone()?, *place))?;
        }
        Ok(InstrSeq {
            id: self.id,
            ty: self.ty,
            instrs,
            end: self.end,
        })
    }
}

impl Deref for InstrSeq {
    type Target = Vec<(Instr, InstrLocId)>;

    fn deref(&self) -> &Vec<(Instr, InstrLocId)>
        ensures { result.now ≡ self.now.instrs }
    {
        &self.instrs
    }
}

impl DerefMut for InstrSeq {
    fn deref_mut(&mut self) -> &mut Vec<(Instr, InstrLocId)>
        ensures* writes_back { sem 𝓛 (lends_instrs self.entry result) }
        ensures value { result.now ≡ self.old.instrs }
    {
        &mut self.instrs
    }
}
