//! The open sequences change, operator by operator.

ghost use Rattle.std.specs.Prelude.{◌≡◌, OnOk};
ghost use Rattle.walrus_body_operands.specs.walrus_body_rules.wasm_body_grammar.wasm_operators.Operators.{Seen};
ghost use Rattle.walrus_body_locals.specs.walrus_body_nesting.Opens.{Shaped, ids_of};
ghost use Rattle.walrus_body_operands.specs.walrus_body_stack.Frames.{blocks, heading_of, opens};
ghost use Rattle.walrus_body_operands.specs.Steps.{IsStep};
ghost use Rattle.walrus_body_operands.specs.declared.steps.Step.TheVariants as steps;
ghost use Rattle.walrus_body_parser.specs.Changes.{Changes, entry_of};

use crate::handlers::{begin_handler, begin_last_handler};
use walrus_body_locals::body_env::BodyError;
use walrus_body_operands::body_stack::Stack;
use walrus_body_operands::{Scope, Step};
use walrus_instr::InstrLocId;

// Ends the innermost block by a `delegate` of this label.
#[inline(never)]
fn hand_on<S: Scope>(
    scope: &S,
    stack: &mut Stack,
    depth: u32,
    place: InstrLocId,
    offset: u64,
) -> Result<bool, BodyError>
    requires { Shaped (blocks stack.old) (opens stack.old) }
    ensures ty { OnOk result (heading_of stack.new ≡ heading_of stack.old) }
    ensures entry { OnOk result (entry_of stack.new ≡ entry_of stack.old) }
    ensures changed { (op : Seen) → IsStep (S.sight scope.now) (ids_of (opens stack.old)) op (steps.Delegate depth) → Changes (S.sight scope.now) op offset place stack.old stack.new result }
{
    stack.check_delegate(offset)?;
    let done = stack.delegate(depth)?;
    Ok(done)
}

/// Changes the open sequences as an operator at this place does; says whether it ended the body.
///
/// # Errors
///
/// At this offset, `Nesting` and `Position` where it may not stand in the innermost sequence, `TypeForm` where there is no type for
/// the handler that it begins; want of memory.
#[inline(always)]
pub(crate) fn change<S: Scope>(
    scope: &S,
    stack: &mut Stack,
    step: Step,
    place: InstrLocId,
    offset: u64,
) -> Result<bool, BodyError>
    requires { Shaped (blocks stack.old) (opens stack.old) }
    ensures ty { OnOk result (heading_of stack.new ≡ heading_of stack.old) }
    ensures entry { OnOk result (entry_of stack.new ≡ entry_of stack.old) }
    ensures changed { (op : Seen) → IsStep (S.sight scope.now) (ids_of (opens stack.old)) op step → Changes (S.sight scope.now) op offset place stack.old stack.new result }
{
    match step {
        Step::Pass => Ok(false),
        Step::Run { instr, cuts } => {
            stack.run(instr, place, cuts)?;
            Ok(false)
        }
        Step::Open { opener, ty } => {
            stack.open(opener, place, ty)?;
            Ok(false)
        }
        Step::Else => {
            stack.begin_else(place, offset)?;
            Ok(false)
        }
        Step::Catch { tag } => {
            begin_handler(scope, stack, tag, place, offset)?;
            Ok(false)
        }
        Step::CatchAll => {
            begin_last_handler(scope, stack, place, offset)?;
            Ok(false)
        }
        Step::Delegate { depth } => hand_on(scope, stack, depth, place, offset),
        Step::End => {
            let done = stack.end(place)?;
            Ok(done)
        }
    }
}
