//! What is written of a function with a body, and what is known of it before that.

ghost use Rattle.std.specs.Prelude.{◌≡◌, IfErr, IfOk, OnErr, OnOk, false, map, slice_get};
ghost use Rattle.walrus_local_numbers.specs.wasm_normal_form.Locals.{runs_of};
ghost use Rattle.walrus_function_parser.specs.walrus_body_parser.walrus_body_stack.walrus_builder.Functions.{seqs_of};
ghost use Rattle.walrus_index_maps.specs.Views.{indices};
ghost use Rattle.walrus_body_names.specs.walrus_pairing.Looks.{number_of};
ghost use Rattle.walrus_body_names.specs.walrus_tree.Text.{operators};
ghost use Rattle.walrus_body_names.specs.walrus_tree.Trees.{IsTree};
ghost use Rattle.walrus_body_names.specs.Names.{AreSet, are_constants, function_in, has_any, local_in, segment_in, text_names};
ghost use Rattle.walrus_body_names.specs.walrus_body_writer.walrus_body_text.Walking.{IsCause as IsTreeCause};
ghost use Rattle.walrus_body_names.specs.walrus_body_writer.Outputs.{Wrote};
ghost use Rattle.walrus_body_names.specs.walrus_body_writer.Refusals.{IsRefusal};
ghost use Rattle.walrus_body_names.specs.walrus_body_writer.walrus_body_text.Visiting.{text_size};
ghost use Rattle.walrus_local_numbers.specs.Declared.{IsOfFunction, declared, has_lost, has_number, local_ids, with_numbers};
ghost use Rattle.walrus_local_numbers.specs.Written.{IsCause, Writes};

use crate::local_function::LocalFunction;
use std::alloc::Global;
use walrus_arena::{DataId, FunctionId, LocalId};
use walrus_body_names::body_env::BodyError;
use walrus_body_names::body_writer::{Output, body_size, emit_instructions};
use walrus_body_names::{FunctionFacts, emit_facts, is_const, used_data_segments};
use walrus_index_maps::IdsToIndices;
use walrus_items::ModuleLocals;
use walrus_local_numbers::emit_locals;

impl LocalFunction {
    /// Its size: the number of its operators other than `else`, `end`, `catch`, `catch_all` and `delegate`.
    ///
    /// # Errors
    ///
    /// `NoTree` exactly where the sequences that the entry sequence reaches form no tree in which each label names a sequence around it;
    /// else want of memory alone.
    pub fn size(&self, alloc: Global) -> Result<u64, BodyError>
        ensures tree { OnOk result (IsTree (seqs_of self.now.builder) 0) }
        ensures counted { IfOk result (λ size. size ≡ text_size (operators (seqs_of self.now.builder) 0)) }
        ensures refused { IfErr result (IsTreeCause (seqs_of self.now.builder)) }
    {
        body_size(alloc, &self.builder)
    }

    /// Whether each instruction of the entry sequence is a constant.
    pub fn is_const(&self) -> bool
        ensures { result ≡ are_constants (slice_get (seqs_of self.now.builder) 0) }
    {
        is_const(&self.builder)
    }

    /// The data segments that it names, each once, by rising id.
    ///
    /// # Errors
    ///
    /// As those of [`size`](LocalFunction::size).
    pub fn used_data_segments(&self, alloc: Global) -> Result<Vec<DataId>, BodyError>
        ensures tree { OnOk result (IsTree (seqs_of self.now.builder) 0) }
        ensures named { IfOk result (λ ids. AreSet (text_names segment_in (operators (seqs_of self.now.builder) 0)) ids.items) }
        ensures refused { IfErr result (IsTreeCause (seqs_of self.now.builder)) }
    {
        used_data_segments(alloc, &self.builder)
    }

    /// Its size, whether it names a data segment, the locals that it names, and the functions to which it refers by `ref.func`.
    ///
    /// # Errors
    ///
    /// As those of [`size`](LocalFunction::size).
    pub fn emit_facts(&self, alloc: Global) -> Result<FunctionFacts, BodyError>
        ensures tree { OnOk result (IsTree (seqs_of self.now.builder) 0) }
        ensures size { IfOk result (λ facts. facts.size ≡ text_size (operators (seqs_of self.now.builder) 0)) }
        ensures segments { IfOk result (λ facts. facts.uses_data_segments ≡ has_any (text_names segment_in (operators (seqs_of self.now.builder) 0))) }
        ensures locals { IfOk result (λ facts. AreSet (text_names local_in (operators (seqs_of self.now.builder) 0)) facts.used_locals.items) }
        ensures referred { IfOk result (λ facts. facts.referred.items ≡ text_names function_in (operators (seqs_of self.now.builder) 0)) }
        ensures refused { IfErr result (IsTreeCause (seqs_of self.now.builder)) }
    {
        emit_facts(alloc, &self.builder)
    }

    /// Gives its locals their numbers, and puts their declarations behind the bytes, in their shortest spelling: of the used ones those
    /// that are no arguments, by type, then by id, in maximal runs of one type. The arguments have the first numbers, in their order,
    /// then the others in this one. `used` may stand in any order, and have ids more than once. Takes time in proportion to the ids, and
    /// to the number of the used ones with its logarithm.
    ///
    /// # Errors
    ///
    /// `Index` of locals where a used one is no argument and not known; else `Index` of types where the type of a local names one that
    /// has no number, `Limit` of types where that has more than 20 bits; or want of memory. The bytes are as they were; of the numbers
    /// none but those of this function's locals are other ones.
    pub fn emit_locals(
        &self,
        alloc: Global,
        used: &[LocalId],
        locals: &ModuleLocals,
        function: FunctionId,
        maps: &mut IdsToIndices,
        out: &mut Vec<u8>,
    ) -> Result<(), BodyError>
        ensures numbered { OnOk result (indices maps.new ≡ record (indices maps.old) { locals = with_numbers function 0 (local_ids locals.now self.now.args.items used.now) (indices maps.old).locals }) }
        ensures others { IsOfFunction function (indices maps.old) (indices maps.new) }
        ensures known { OnOk result (has_lost locals.now (has_number self.now.args.items) used.now ≡ false) }
        ensures written { OnOk result (Writes (indices maps.old).types.number (runs_of (map (λ k. k.0) (declared locals.now self.now.args.items used.now))) out.old.items out.new.items) }
        ensures kept { OnErr result (out.new.items ≡ out.old.items) }
        ensures refused { IfErr result (IsCause (indices maps.old).types.number locals.now self.now.args.items used.now (runs_of (map (λ k. k.0) (declared locals.now self.now.args.items used.now)))) }
    {
        let args = self.args.as_slice();
        emit_locals(alloc, args, used, locals, function, maps, out)
    }

    /// Puts its instructions behind what was written, through its last `end`: each as an operator in its shortest spelling, what it names
    /// by its numbers, the labels by how many sequences lie between, the blocks by the types of their sequences. Where places are kept,
    /// each written operator has one. Takes time in proportion to the sequences, to the instructions that are written and to their labels.
    ///
    /// # Errors
    ///
    /// `NoTree` exactly where the sequences that the entry sequence reaches form no tree in which each label names a sequence around it;
    /// then the output is as it was. Else a first part of the operators is written behind what was there, and the next one is refused:
    /// `Index` where what it names has no number, `Limit` of types where its value type names one by a number of more than 20 bits; or
    /// memory was wanted.
    pub fn emit_instructions(
        &self,
        alloc: Global,
        function: FunctionId,
        maps: &IdsToIndices,
        out: &mut Output,
    ) -> Result<(), BodyError>
        ensures tree { OnOk result (IsTree (seqs_of self.now.builder) 0) }
        ensures written { OnOk result (Wrote (number_of (indices maps.now) function) (seqs_of self.now.builder) (operators (seqs_of self.now.builder) 0) out.old out.new) }
        ensures refused { IfErr result (λ fault. IsRefusal (number_of (indices maps.now) function) (seqs_of self.now.builder) out.old fault out.new) }
    {
        emit_instructions(alloc, &self.builder, function, maps, out)
    }
}
