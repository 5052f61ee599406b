//! Calls above the faces `wasmparser`, `walrus_ir` and `walrus_body`, with contracts in words that these pass on, and the example of
//! README.md above `walrus`.
#![tactic(auto)]

ghost use Rattle.std.specs.Prelude.{◌≡◌, IfErr, IfOk, OnErr, MatchBool};
ghost use Rattle.wasmparser.specs.Reading.{Reads, little_at};
ghost use Rattle.wasmparser.specs.Floats.{seen_bits32};
ghost use Rattle.walrus_ir.specs.Kinds.{function_kind, entry_kind};
ghost use Rattle.walrus_ir.specs.Pairs.{MergesBoth};
ghost use Rattle.walrus_ir.specs.Functions.{seqs_of};
ghost use Rattle.walrus_ir.specs.Text.{operators};
ghost use Rattle.walrus_ir.specs.Trees.{IsTree};
ghost use Rattle.walrus_body.specs.Emitting.{IsCause};
ghost use Rattle.walrus_body.specs.Names.{AreSet, segment_in, text_names};

pub mod readme;

use std::alloc::{AllocError, Global};
use walrus_body::{BodyError, LocalFunction};
use walrus_ir::{DataId, FunctionBuilder, ModuleTypes, TypeId, ValType, check_tree};
use wasmparser::{BinaryReader, Ieee32};

/// The bits of an f32.
pub fn bits(reader: &mut BinaryReader<'_>) -> wasmparser::Result<Ieee32>
    ensures { Reads (little_at 4) seen_bits32 reader.old reader.new result }
{
    reader.read_f32()
}

/// The types of a function and of its body's block.
pub fn types_of(
    types: &mut ModuleTypes,
    params: &[ValType],
    results: &[ValType],
) -> Result<(TypeId, TypeId), AllocError>
    ensures added { IfOk result (λ ids. MergesBoth (function_kind params.now results.now) ids.0 (entry_kind results.now) ids.1 types.old types.new) }
    ensures refused { OnErr result (types.new ≡ types.old) }
{
    types.add_with_entry_ty(params, results)
}

/// Whether a body is a tree.
pub fn is_tree(alloc: Global, body: &FunctionBuilder) -> Result<bool, AllocError>
    ensures { IfOk result (λ tree. MatchBool tree (IsTree (seqs_of body.now) 0) (IsTree (seqs_of body.now) 0 → ⊥)) }
{
    check_tree(alloc, body, body.func_body_id())
}

/// The data segments that a function names.
pub fn segments(alloc: Global, function: &LocalFunction) -> Result<Vec<DataId>, BodyError>
    ensures named { IfOk result (λ ids. AreSet (text_names segment_in (operators (seqs_of function.now.builder) 0)) ids.items) }
    ensures refused { IfErr result (IsCause (seqs_of function.now.builder)) }
{
    function.used_data_segments(alloc)
}
