//! All operators of a body are read.

ghost use Rattle.std.specs.Prelude.{◌≡◌, ◌<◌, ◌≤◌, ◌+◌, length, IfOk, IfErr};
ghost use Rattle.wasm_reader.specs.Cursor.{IsWithin, end_of};
ghost use Rattle.walrus_body_operands.specs.walrus_body_stack.walrus_builder.Built.{contents};
ghost use Rattle.walrus_body_operands.specs.walrus_body_stack.walrus_builder.Functions.{seqs_of};
ghost use Rattle.walrus_body_locals.specs.walrus_body_nesting.Opens.{type_at};
ghost use Rattle.walrus_body_locals.specs.walrus_body_nesting.Stands.{total};
ghost use Rattle.walrus_body_operands.specs.walrus_body_stack.Frames.{heading};
ghost use Rattle.walrus_body_parser.specs.Trees.{ReadsTree, RefusesTree, validating};

use crate::operators::{read_any, read_frequent};
use std::alloc::Global;
use walrus_body_locals::body_env::{BodyError, Validator};
use walrus_body_operands::Scope;
use walrus_body_operands::body_stack::Stack;
use walrus_body_operands::builder::FunctionBuilder;
use walrus_operators::OperatorReader;
use wasm_reader::BinaryReader;

/// Reads the operators that are left into a function whose body is empty, as a tree in normal form; each location is the operator's
/// place from the beginning of the code section's contents. Asks for bytes that begin behind that, and end less than 4294967295 behind
/// it.
///
/// # Errors
///
/// The first that is due, as each operator is refused; behind them `EndOfFile` where the body isn't closed, `Nesting` at what follows its
/// end, and as the validator refuses the end; want of memory. The validator was told of the operators in front of the fault, and of the
/// one that it refuses itself, of no other.
pub fn read_tree<S: Scope, V: Validator>(
    scope: &S,
    alloc: Global,
    body: BinaryReader<'_>,
    builder: FunctionBuilder,
    validator: &mut V,
    code_start: u64,
) -> Result<FunctionBuilder, BodyError>
    requires empty { length (seqs_of builder) ≡ 1 }
    requires bare { total (contents builder.builder) ≡ 0 }
    requires within { IsWithin body }
    requires begins { code_start ≤ body.window.start + body.position }
    requires ends { end_of body < code_start + 4294967295 }
    ensures ty { IfOk result (λ f. heading f ≡ heading builder) }
    ensures entry { IfOk result (λ f. type_at (contents f.builder) 0 ≡ type_at (contents builder.builder) 0) }
    ensures read { IfOk result (λ f. ReadsTree (S.sight scope.now) (validating V.op_step V.finish_step) code_start body.entry validator.old validator.new (contents f.builder)) }
    ensures refused { IfErr result (λ e. RefusesTree (S.sight scope.now) (validating V.op_step V.finish_step) code_start body.entry validator.old validator.new e) }
{
    let mut reader = OperatorReader::new(body);
    let mut stack = Stack::new(alloc, builder);
    let mut done = false;
    while !done {
        done = read_frequent(scope, alloc, &mut reader, &mut stack, validator, code_start)?;
        if !done {
            done = read_any(scope, alloc, &mut reader, &mut stack, validator, code_start)?;
        }
    }
    let end = reader.original_position();
    if !reader.eof() {
        return Err(BodyError::Nesting { offset: Some(end) });
    }
    validator.finish(end)?;
    Ok(stack.into_builder())
}
