//! A function with a body.
ghost use Rattle.std.specs.Prelude.{◌≡◌, ◌↔◌, ◌<◌, length, slice_get, IsTrue, Some};
ghost use Rattle.std.specs.Borrow.{sem};
ghost use Rattle.walrus_function_parser.specs.walrus_body_parser.walrus_body_stack.walrus_builder.Functions.{seqs_of};
ghost use Rattle.walrus_local_function.specs.Locals.{lends_function, lends_block};

use walrus_arena::{InstrSeqId, LocalId, TypeId};
use walrus_function_parser::builder::FunctionBuilder;
use walrus_instr::InstrSeq;

/// A function with a body (Core Specification, functions): what was built, and the locals that are its arguments.
#[derive(Drop)]
pub struct LocalFunction {
    pub(crate) builder: FunctionBuilder,
    /// The locals that the parameters are, one each, in their order.
    pub args: Vec<LocalId>,
}

impl LocalFunction {
    /// What was built as a function of these arguments.
    pub fn new(args: Vec<LocalId>, builder: FunctionBuilder) -> Self
        ensures { result ≡ record { builder = builder; args = args } }
    {
        LocalFunction { builder, args }
    }

    /// Its type.
    pub fn ty(&self) -> TypeId
        ensures { result ≡ self.now.builder.ty }
    {
        self.builder.ty()
    }

    /// The id of the body's own sequence.
    pub fn entry_block(&self) -> InstrSeqId
        ensures { result ≡ 0 }
    {
        self.builder.func_body_id()
    }

    /// Whether there is a sequence of this id.
    pub fn contains_block(&self, id: InstrSeqId) -> bool
        ensures { IsTrue result ↔ (id < length (seqs_of self.now.builder)) }
    {
        id.index() < self.builder.seqs().len()
    }

    /// The sequence of a known id.
    pub fn block(&self, id: InstrSeqId) -> &InstrSeq
        requires { id < length (seqs_of self.now.builder) }
        ensures { slice_get (seqs_of self.now.builder) id ≡ Some result.now }
    {
        &self.builder.seqs()[id.index()]
    }

    /// The sequence of a known id, for writing.
    pub fn block_mut(&mut self, id: InstrSeqId) -> &mut InstrSeq
        requires { id < length (seqs_of self.old.builder) }
        ensures* writes_back { sem 𝓛 (lends_block self.entry id result) }
        ensures value { slice_get (seqs_of self.old.builder) id ≡ Some result.now }
    {
        self.builder.seq_mut(id)
    }

    /// What was built.
    pub fn builder(&self) -> &FunctionBuilder
        ensures { result.now ≡ self.now.builder }
    {
        &self.builder
    }

    /// What was built, for writing.
    pub fn builder_mut(&mut self) -> &mut FunctionBuilder
        ensures* writes_back { sem 𝓛 (lends_function self.entry result) }
        ensures value { result.now ≡ self.old.builder }
    {
        &mut self.builder
    }
}
