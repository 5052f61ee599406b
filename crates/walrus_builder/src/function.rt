//! Building of functions.
ghost use Rattle.std.specs.Prelude.{◌≡◌, ◌<◌, [], ◌∷◌, ◌++◌, length, slice_get, IfOk, OnOk, OnErr, Some, None, string_bytes};
ghost use Rattle.std.specs.Option.{option_map};
ghost use Rattle.std.specs.Borrow.{sem};
ghost use Rattle.walrus_builder.specs.Built.{contents, edited, empty_seq, filled_with};
ghost use Rattle.walrus_builder.specs.Functions.{lends_builder, lends_seq_of, seqs_of, IsOf, IsNew};

use crate::seq_builder::InstrSeqBuilder;
use std::alloc::{AllocError, Global};
use walrus_arena::{InstrSeqId, TypeId};
use walrus_walks::instr::{Instr, InstrLocId, InstrSeq, InstrSeqType, SeqType};
use walrus_walks::type_table::{ModuleTypes, ValType};

/// A function that is built: its type, its name, and the sequences of its body, whose own is the first.
#[derive(Drop)]
pub struct FunctionBuilder {
    alloc: Global,
    ty: TypeId,
    /// The name that is written for it.
    pub name: Option<String>,
    pub(crate) builder: InstrSeqBuilder,
}

impl FunctionBuilder {
    /// A function of these parameters and results, whose body is empty, without a name. Its type and the type of
    /// its body's own block are added to the types, where no live one is equal.
    ///
    /// # Errors
    ///
    /// Want of memory. The types stay as they were.
    pub fn new(
        alloc: Global,
        types: &mut ModuleTypes,
        params: &[ValType],
        results: &[ValType],
    ) -> Result<Self, AllocError>
        ensures made { IfOk result (λ f. IsNew params.now results.now f types.old types.new) }
        ensures refused { OnErr result (types.new ≡ types.old) }
    {
        let none = TypeId::from_index(0);
        let mut function = FunctionBuilder::with_types(
            alloc,
            none,
            InstrSeqType::MultiValue(none),
        )?;
        // Last, so that nothing is refused once the types are added.
        let (ty, entry) = types.add_with_entry_ty(params, results)?;
        function.ty = ty;
        function.builder.seqs[0].ty = SeqType::new(InstrSeqType::MultiValue(entry));
        Ok(function)
    }

    /// A function of this type, whose body is empty and has this block type, without a name.
    ///
    /// # Errors
    ///
    /// Want of memory.
    pub fn with_types(alloc: Global, ty: TypeId, entry: InstrSeqType) -> Result<Self, AllocError>
        ensures { IfOk result (λ f. IsOf f ty entry) }
    {
        let builder = InstrSeqBuilder::new(alloc, entry)?;
        Ok(FunctionBuilder {
            alloc,
            ty,
            name: None,
            builder,
        })
    }

    /// Its type.
    pub fn ty(&self) -> TypeId
        ensures { result ≡ self.now.ty }
    {
        self.ty
    }

    /// Gives it a name.
    ///
    /// # Errors
    ///
    /// Want of memory. It stays as it was.
    pub fn name(&mut self, name: &str) -> Result<(), AllocError>
        ensures named { OnOk result (option_map string_bytes self.new.name ≡ Some name.now) }
        ensures ty { self.new.ty ≡ self.old.ty }
        ensures seqs { seqs_of self.new ≡ seqs_of self.old }
        ensures refused { OnErr result (self.new.name ≡ self.old.name) }
    {
        let text = String::from_str(self.alloc, name)?;
        self.name = Some(text);
        Ok(())
    }

    /// The id of the body's own sequence.
    pub fn func_body_id(&self) -> InstrSeqId
        ensures { result ≡ 0 }
    {
        InstrSeqId::from_index(0)
    }

    /// All sequences, by id.
    pub fn seqs(&self) -> &[InstrSeq]
        ensures { result.now ≡ seqs_of self.now }
    {
        self.builder.seqs()
    }

    /// The body's own sequence, to add to.
    pub fn func_body(&mut self) -> &mut InstrSeqBuilder
        ensures* writes_back { sem 𝓛 (lends_builder self.entry result) }
        ensures at { result.now.id ≡ 0 }
        ensures seqs { result.now.seqs ≡ seqs_of self.old }
    {
        self.builder.go_to_body();
        &mut self.builder
    }

    /// A sequence of a known id, to add to.
    pub fn instr_seq(&mut self, id: InstrSeqId) -> &mut InstrSeqBuilder
        requires { id < length (seqs_of self.old) }
        ensures* writes_back { sem 𝓛 (lends_builder self.entry result) }
        ensures at { result.now.id ≡ id }
        ensures seqs { result.now.seqs ≡ seqs_of self.old }
    {
        self.builder.go_to(id);
        &mut self.builder
    }

    /// A sequence of a known id, for writing: its type, its instructions and the location of its `end`. Its id
    /// stays; a whole sequence that is put in its place brings its own.
    pub fn seq_mut(&mut self, id: InstrSeqId) -> &mut InstrSeq
        requires { id < length (seqs_of self.old) }
        ensures* writes_back { sem 𝓛 (lends_seq_of self.entry id result) }
        ensures value { slice_get (seqs_of self.old) id ≡ Some result.now }
    {
        self.builder.seq_mut(id)
    }

    /// Gives a sequence of a known id these instructions, and its `end` this location, in place of its own. Takes
    /// no memory.
    pub fn fill(&mut self, id: InstrSeqId, instrs: Vec<(Instr, InstrLocId)>, end: InstrLocId)
        requires { id < length (seqs_of self.old) }
        ensures filled { contents self.new.builder ≡ edited (filled_with instrs.items end) (contents self.old.builder) id }
        ensures ty { self.new.ty ≡ self.old.ty }
        ensures name { self.new.name ≡ self.old.name }
    {
        let seq = self.seq_mut(id);
        seq.instrs = instrs;
        seq.end = end;
    }

    /// Gives back the room that its list of sequences has to spare, once no more are to come. Takes no memory.
    pub fn shrink_to_fit(&mut self)
        ensures seqs { contents self.new.builder ≡ contents self.old.builder }
        ensures ty { self.new.ty ≡ self.old.ty }
        ensures name { self.new.name ≡ self.old.name }
    {
        self.builder.shrink_to_fit();
    }

    /// Adds an empty sequence that no instruction holds yet, and gives its id.
    ///
    /// # Errors
    ///
    /// Want of memory. The sequences stay as they were.
    #[inline(always)]
    pub fn dangling_instr_seq(&mut self, ty: InstrSeqType) -> Result<InstrSeqId, AllocError>
        ensures id { IfOk result (λ id. id ≡ length (seqs_of self.old)) }
        ensures added { IfOk result (λ id. contents self.new.builder ≡ contents self.old.builder ++ empty_seq id ty ∷ []) }
        ensures refused { OnErr result (contents self.new.builder ≡ contents self.old.builder) }
        ensures ty { self.new.ty ≡ self.old.ty }
        ensures name { self.new.name ≡ self.old.name }
    {
        self.builder.add_seq(ty)
    }
}
