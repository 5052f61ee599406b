//! Operators are read, one after another.

ghost use Rattle.std.specs.Prelude.{◌≡◌, ◌<◌, ◌≤◌, ◌+◌, length, true, IfOk, OnOk, Some, Err};
ghost use Rattle.walrus_operators.specs.Immediates.{kind_is};
ghost use Rattle.wasm_reader.specs.Cursor.{Cursor, Forward, IsWithin, end_of, rest};
ghost use Rattle.walrus_body_operands.specs.walrus_body_rules.wasm_body_grammar.wasm_operators.declared.entry.Entry.{Entry};
ghost use Rattle.walrus_body_operands.specs.walrus_body_rules.wasm_body_grammar.wasm_operators.Table.{find_code};
ghost use Rattle.walrus_body_locals.specs.wasm_body_grammar.Bodies.{operator};
ghost use Rattle.walrus_operators.specs.Operators.{seen, IsNext, IsNextOf, ReadsOperator};
ghost use Rattle.walrus_body_locals.specs.walrus_body_nesting.Opens.{Good, Shaped};
ghost use Rattle.walrus_body_operands.specs.walrus_body_stack.Frames.{blocks, heading_of, opens};
ghost use Rattle.walrus_body_locals.specs.Calls.{Parses};
ghost use Rattle.walrus_body_operands.specs.Listed.{IsListed, keeps_on, opens_plain, parts};
ghost use Rattle.walrus_body_parser.specs.Changes.{ReadsNext, ReadsOn, entry_of};
ghost use Rattle.walrus_body_parser.specs.Points.{IsRefusedAs};
ghost use Rattle.walrus_body_parser.specs.Trees.{Follows, validating};

use crate::steps::change;
use std::alloc::Global;
use walrus_body_locals::body_env::{BodyError, Validator};
use walrus_body_locals::{Class, next_class};
use walrus_body_operands::body_stack::Stack;
use walrus_body_operands::{Scope, instr_on, opened_type, opener_of, part_of, step_of};
use walrus_instr::InstrLocId;
use walrus_operators::operator_table::{Flow, Kind};
use walrus_operators::{Operator, OperatorError, OperatorReader};

// The fault of an operator that isn't read.
#[cold]
#[inline(never)]
fn fault(error: OperatorError) -> BodyError
    ensures { (old new : Cursor) → IsWithin old → ReadsOperator old.window.features old new (Err error) → IsRefusedAs old new result }
{
    match error {
        OperatorError::Read(error) => BodyError::from(error),
        OperatorError::Unknown(offset) => BodyError::Operator {
            offset: Some(offset),
        },
    }
}

// The next operator, which the features let pass.
fn next_operator(alloc: Global, reader: &mut OperatorReader<'_>) -> Result<Operator, BodyError>
    requires { IsWithin reader.old }
    ensures read { Parses (operator reader.old.window.features).parse (λ op x. seen op ≡ x) reader.old reader.new result }
    ensures listed { IfOk result (λ op. IsListed op) }
    ensures takes { OnOk result (length (rest reader.new) < length (rest reader.old)) }
{
    match reader.read(alloc) {
        Ok(op) => Ok(op),
        Err(error) => Err(fault(error)),
    }
}

// The next one, of a kind that is known.
#[inline(always)]
fn next_known(
    kind: Kind,
    alloc: Global,
    reader: &mut OperatorReader<'_>,
) -> Result<Operator, BodyError>
    requires within { IsWithin reader.old }
    requires next { IsNextOf reader.old kind }
    ensures read { Parses (operator reader.old.window.features).parse (λ op x. seen op ≡ x) reader.old reader.new result }
    ensures listed { IfOk result (λ op. IsListed op) }
    ensures kind { IfOk result (λ op. kind_is op.immediates ≡ kind) }
    ensures takes { OnOk result (length (rest reader.new) < length (rest reader.old)) }
    ensures entry { IfOk result (λ op. (e : Entry) → IsNext reader.old e → find_code op.code.prefix op.code.number ≡ Some e) }
{
    match reader.read_as(kind, alloc) {
        Ok(op) => Ok(op),
        Err(error) => Err(fault(error)),
    }
}

/// Reads an operator inside the open sequences, changes them, and then tells the validator of it; says whether it ended the body. Asks
/// for an end of the bytes that is less than 4294967295 behind the beginning of the code section's contents. It isn't inlined, as what it
/// keeps on the stack would be set to zero for each of the others, too.
///
/// # Errors
///
/// The first that is due: as the operator is read; at its first byte `Operator`, `Index`, `TypeForm`, `Nesting`, `Position`,
/// `Unsupported` and `Bounds`, by their numbers; as the validator refuses it; want of memory. Unless the validator refuses it, it was
/// told nothing.
#[inline(never)]
pub(crate) fn read_any<S: Scope, V: Validator>(
    scope: &S,
    alloc: Global,
    reader: &mut OperatorReader<'_>,
    stack: &mut Stack,
    validator: &mut V,
    code_start: u64,
) -> Result<bool, BodyError>
    requires shaped { Shaped (blocks stack.old) (opens stack.old) }
    requires within { IsWithin reader.old }
    requires begins { code_start ≤ reader.old.window.start + reader.old.position }
    requires ends { end_of reader.old < code_start + 4294967295 }
    ensures read { ReadsNext (S.sight scope.now) V.op_step code_start reader.old stack.old validator.old reader.new stack.new validator.new result }
    ensures takes { OnOk result (length (rest reader.new) < length (rest reader.old)) }
    ensures ty { OnOk result (heading_of stack.new ≡ heading_of stack.old) }
    ensures entry { OnOk result (entry_of stack.new ≡ entry_of stack.old) }
    ensures moves { Forward reader.old reader.new }
{
    let offset = reader.original_position();
    let place = InstrLocId::new((offset - code_start) as u32);
    let op = next_operator(alloc, reader)?;
    let step = step_of(scope, alloc, &op, &*stack, offset)?;
    let done = change(scope, stack, step, place, offset)?;
    validator.op(offset, &op)?;
    Ok(done)
}

// Reads an `end` or an `else`.
#[inline(always)]
fn read_part<S: Scope, V: Validator>(
    flow: Flow,
    scope: &S,
    alloc: Global,
    reader: &mut OperatorReader<'_>,
    stack: &mut Stack,
    validator: &mut V,
    code_start: u64,
) -> Result<bool, BodyError>
    requires shaped { Shaped (blocks stack.old) (opens stack.old) }
    requires within { IsWithin reader.old }
    requires begins { code_start ≤ reader.old.window.start + reader.old.position }
    requires ends { end_of reader.old < code_start + 4294967295 }
    requires part { parts flow ≡ true }
    requires next { (e : Entry) × IsNext reader.old e × (e.kind ≡ Kind.Bare) × (e.flow ≡ flow) }
    ensures read { ReadsNext (S.sight scope.now) V.op_step code_start reader.old stack.old validator.old reader.new stack.new validator.new result }
    ensures takes { OnOk result (length (rest reader.new) < length (rest reader.old)) }
    ensures ty { OnOk result (heading_of stack.new ≡ heading_of stack.old) }
    ensures entry { OnOk result (entry_of stack.new ≡ entry_of stack.old) }
    ensures moves { Forward reader.old reader.new }
{
    let offset = reader.original_position();
    let place = InstrLocId::new((offset - code_start) as u32);
    let op = next_known(Kind::Bare, alloc, reader)?;
    let step = part_of(flow, scope, &op, &*stack, offset)?;
    let done = change(scope, stack, step, place, offset)?;
    validator.op(offset, &op)?;
    Ok(done)
}

// Reads an `else`, apart from the loop.
#[inline(never)]
fn read_else<S: Scope, V: Validator>(
    scope: &S,
    alloc: Global,
    reader: &mut OperatorReader<'_>,
    stack: &mut Stack,
    validator: &mut V,
    code_start: u64,
) -> Result<bool, BodyError>
    requires shaped { Shaped (blocks stack.old) (opens stack.old) }
    requires within { IsWithin reader.old }
    requires begins { code_start ≤ reader.old.window.start + reader.old.position }
    requires ends { end_of reader.old < code_start + 4294967295 }
    requires next { (e : Entry) × IsNext reader.old e × (e.kind ≡ Kind.Bare) × (e.flow ≡ Flow.Else) }
    ensures read { ReadsNext (S.sight scope.now) V.op_step code_start reader.old stack.old validator.old reader.new stack.new validator.new result }
    ensures takes { OnOk result (length (rest reader.new) < length (rest reader.old)) }
    ensures ty { OnOk result (heading_of stack.new ≡ heading_of stack.old) }
    ensures entry { OnOk result (entry_of stack.new ≡ entry_of stack.old) }
    ensures moves { Forward reader.old reader.new }
{
    read_part(
        Flow::Else,
        scope,
        alloc,
        reader,
        stack,
        validator,
        code_start,
    )
}

// Reads one that has a block type, and opens a block, a loop or an `if`.
#[inline(never)]
fn read_opening<S: Scope, V: Validator>(
    flow: Flow,
    scope: &S,
    alloc: Global,
    reader: &mut OperatorReader<'_>,
    stack: &mut Stack,
    validator: &mut V,
    code_start: u64,
) -> Result<(), BodyError>
    requires shaped { Shaped (blocks stack.old) (opens stack.old) }
    requires within { IsWithin reader.old }
    requires begins { code_start ≤ reader.old.window.start + reader.old.position }
    requires ends { end_of reader.old < code_start + 4294967295 }
    requires opens { opens_plain flow ≡ true }
    requires next { (e : Entry) × IsNext reader.old e × (e.kind ≡ Kind.Block) × (e.flow ≡ flow) }
    ensures read { ReadsOn (S.sight scope.now) V.op_step code_start reader.old stack.old validator.old reader.new stack.new validator.new result }
    ensures takes { OnOk result (length (rest reader.new) < length (rest reader.old)) }
    ensures ty { OnOk result (heading_of stack.new ≡ heading_of stack.old) }
    ensures entry { OnOk result (entry_of stack.new ≡ entry_of stack.old) }
    ensures moves { Forward reader.old reader.new }
{
    let offset = reader.original_position();
    let place = InstrLocId::new((offset - code_start) as u32);
    let op = next_known(Kind::Block, alloc, reader)?;
    let ty = opened_type(scope, &op, offset)?;
    let opener = opener_of(flow);
    stack.open(opener, place, ty)?;
    validator.op(offset, &op)?;
    Ok(())
}

// One of a kind that is known, behind which the next is reached. All of it is inlined, for each kind anew.
#[inline(always)]
fn read_known<S: Scope, V: Validator>(
    kind: Kind,
    scope: &S,
    alloc: Global,
    reader: &mut OperatorReader<'_>,
    stack: &mut Stack,
    validator: &mut V,
    code_start: u64,
) -> Result<(), BodyError>
    requires shaped { Shaped (blocks stack.old) (opens stack.old) }
    requires within { IsWithin reader.old }
    requires begins { code_start ≤ reader.old.window.start + reader.old.position }
    requires ends { end_of reader.old < code_start + 4294967295 }
    requires next { (e : Entry) × IsNext reader.old e × (e.kind ≡ kind) × (keeps_on (Some e.flow) ≡ true) }
    ensures read { ReadsOn (S.sight scope.now) V.op_step code_start reader.old stack.old validator.old reader.new stack.new validator.new result }
    ensures takes { OnOk result (length (rest reader.new) < length (rest reader.old)) }
    ensures ty { OnOk result (heading_of stack.new ≡ heading_of stack.old) }
    ensures entry { OnOk result (entry_of stack.new ≡ entry_of stack.old) }
    ensures moves { Forward reader.old reader.new }
{
    let offset = reader.original_position();
    let place = InstrLocId::new((offset - code_start) as u32);
    let op = next_known(kind, alloc, reader)?;
    let instr = instr_on(scope, alloc, &op, &*stack, offset)?;
    stack.run(instr, place, false)?;
    validator.op(offset, &op)?;
    Ok(())
}

/// Reads operators as [`read_any`] does, as long as they are frequent ones, those that open a block, a loop or an `if`, `else`s or `end`s;
/// says whether the last one ended the body. The loop stands here: the reading of frequent ones and of `end`s is inlined in it, for each
/// class anew, and what has so many copies is never inlined itself. What opens a block, and an `else`, have functions of their own, as what
/// they keep on the stack has no part in that.
///
/// # Errors
///
/// As [`read_any`].
#[inline(never)]
#[tactic(auto, using(crate::proofs::Running::runs_start))]
pub(crate) fn read_frequent<S: Scope, V: Validator>(
    scope: &S,
    alloc: Global,
    reader: &mut OperatorReader<'_>,
    stack: &mut Stack,
    validator: &mut V,
    code_start: u64,
) -> Result<bool, BodyError>
    requires shaped { Shaped (blocks stack.old) (opens stack.old) }
    requires within { IsWithin reader.old }
    requires begins { code_start ≤ reader.old.window.start + reader.old.position }
    requires ends { end_of reader.old < code_start + 4294967295 }
    ensures follows { Follows (S.sight scope.now) (validating V.op_step V.finish_step) code_start reader.old stack.old validator.old reader.new stack.new validator.new result }
    ensures shaped { IfOk result (λ done. Good done (blocks stack.new) (opens stack.new)) }
    ensures within { OnOk result (IsWithin reader.new) }
    ensures begins { OnOk result (code_start ≤ reader.new.window.start + reader.new.position) }
    ensures ends { OnOk result (end_of reader.new < code_start + 4294967295) }
    ensures left { OnOk result (length (rest reader.new) ≤ length (rest reader.old)) }
    ensures ty { OnOk result (heading_of stack.new ≡ heading_of stack.old) }
    ensures entry { OnOk result (entry_of stack.new ≡ entry_of stack.old) }
{
    loop {
        // The class of its code tells how the next one is read, by one jump. Each returns by itself: where they met, what the others hold
        // would be written for each.
        match next_class(reader) {
            Class::Local => read_known(
                Kind::Local,
                scope,
                alloc,
                reader,
                stack,
                validator,
                code_start,
            )?,
            Class::Global => read_known(
                Kind::Global,
                scope,
                alloc,
                reader,
                stack,
                validator,
                code_start,
            )?,
            Class::Load => read_known(
                Kind::Access,
                scope,
                alloc,
                reader,
                stack,
                validator,
                code_start,
            )?,
            Class::Store => read_known(
                Kind::Access,
                scope,
                alloc,
                reader,
                stack,
                validator,
                code_start,
            )?,
            Class::I32 => read_known(
                Kind::I32,
                scope,
                alloc,
                reader,
                stack,
                validator,
                code_start,
            )?,
            Class::I64 => read_known(
                Kind::I64,
                scope,
                alloc,
                reader,
                stack,
                validator,
                code_start,
            )?,
            Class::F64 => read_known(
                Kind::F64,
                scope,
                alloc,
                reader,
                stack,
                validator,
                code_start,
            )?,
            Class::Plain => read_known(
                Kind::Bare,
                scope,
                alloc,
                reader,
                stack,
                validator,
                code_start,
            )?,
            Class::Chooses => read_known(
                Kind::Label,
                scope,
                alloc,
                reader,
                stack,
                validator,
                code_start,
            )?,
            Class::Calls => read_known(
                Kind::Function,
                scope,
                alloc,
                reader,
                stack,
                validator,
                code_start,
            )?,
            Class::End => {
                if read_part(
                    Flow::End,
                    scope,
                    alloc,
                    reader,
                    stack,
                    validator,
                    code_start,
                )? {
                    return Ok(true);
                }
            }
            Class::Else => {
                if read_else(scope, alloc, reader, stack, validator, code_start)? {
                    return Ok(true);
                }
            }
            Class::Opens(flow) => {
                read_opening(flow, scope, alloc, reader, stack, validator, code_start)?
            }
            Class::Rare => return Ok(false),
        }
    }
}
