//! Handlers of a legacy `try` begin.

ghost use Rattle.std.specs.Prelude.{◌≡◌, [], Some, None, IfOk, IfErr, OnOk};
ghost use Rattle.walrus_body_operands.specs.walrus_body_rules.wasm_body_grammar.wasm_operators.Operators.{Seen};
ghost use Rattle.walrus_body_locals.specs.walrus_body_nesting.Opens.{IsReached, Shaped, Unless, ids_of, reach_on};
ghost use Rattle.walrus_body_operands.specs.walrus_body_stack.Frames.{blocks, heading_of, inner, opens};
ghost use Rattle.walrus_body_operands.specs.walrus_body_rules.Sights.{handler_of, results_of, tag_params};
ghost use Rattle.walrus_body_locals.specs.walrus_body_env.declared.error.BodyError.TheVariants as faults;
ghost use Rattle.walrus_body_operands.specs.declared.steps.Step.TheVariants as steps;
ghost use Rattle.walrus_body_operands.specs.Steps.{IsStep};
ghost use Rattle.walrus_body_parser.specs.Changes.{Turns, entry_of};

use walrus_arena::TagId;
use walrus_body_locals::body_env::BodyError;
use walrus_body_locals::body_nesting::Reach;
use walrus_body_operands::body_stack::Stack;
use walrus_body_operands::{Scope, handler_type, last_handler_type};
use walrus_instr::{InstrLocId, InstrSeqType};

// The type of the next handler's sequence, for the exceptions of a tag. Where the block isn't reached nobody is asked for one.
fn type_for<S: Scope>(
    scope: &S,
    stack: &Stack,
    tag: TagId,
    offset: u64,
) -> Result<InstrSeqType, BodyError>
    ensures found { IfOk result (λ ty. Unless (reach_on (inner stack.now).reach) (handler_of (S.sight scope.now) (tag_params (S.sight scope.now) ((S.sight scope.now).tag_type tag)) (results_of (S.sight scope.now) (inner stack.now).ty) ≡ Some ty)) }
    ensures none { IfErr result (λ e. IsReached (inner stack.now).reach × (handler_of (S.sight scope.now) (tag_params (S.sight scope.now) ((S.sight scope.now).tag_type tag)) (results_of (S.sight scope.now) (inner stack.now).ty) ≡ None) × (e ≡ faults.TypeForm (Some offset))) }
{
    let own = stack.block_type();
    match stack.reach() {
        Reach::Dropped => Ok(own),
        Reach::Live => handler_type(scope, own, tag).ok_or(no_type(offset)),
        Reach::Cut => handler_type(scope, own, tag).ok_or(no_type(offset)),
    }
}

// The type of the next handler's sequence, for all exceptions.
fn last_type_for<S: Scope>(scope: &S, stack: &Stack, offset: u64) -> Result<InstrSeqType, BodyError>
    ensures found { IfOk result (λ ty. Unless (reach_on (inner stack.now).reach) (handler_of (S.sight scope.now) (Some []) (results_of (S.sight scope.now) (inner stack.now).ty) ≡ Some ty)) }
    ensures none { IfErr result (λ e. IsReached (inner stack.now).reach × (handler_of (S.sight scope.now) (Some []) (results_of (S.sight scope.now) (inner stack.now).ty) ≡ None) × (e ≡ faults.TypeForm (Some offset))) }
{
    let own = stack.block_type();
    match stack.reach() {
        Reach::Dropped => Ok(own),
        Reach::Live => last_handler_type(scope, own).ok_or(no_type(offset)),
        Reach::Cut => last_handler_type(scope, own).ok_or(no_type(offset)),
    }
}

// No type stands for a handler at this offset.
fn no_type(offset: u64) -> BodyError
    ensures { result ≡ faults.TypeForm (Some offset) }
{
    BodyError::TypeForm {
        offset: Some(offset),
    }
}

/// Begins a handler for the exceptions of a tag.
#[inline(never)]
pub(crate) fn begin_handler<S: Scope>(
    scope: &S,
    stack: &mut Stack,
    tag: TagId,
    place: InstrLocId,
    offset: u64,
) -> Result<(), BodyError>
    requires { Shaped (blocks stack.old) (opens stack.old) }
    ensures ty { OnOk result (heading_of stack.new ≡ heading_of stack.old) }
    ensures entry { OnOk result (entry_of stack.new ≡ entry_of stack.old) }
    ensures turned { (op : Seen) → IsStep (S.sight scope.now) (ids_of (opens stack.old)) op (steps.Catch tag) → Turns (S.sight scope.now) op offset place stack.old stack.new result }
{
    stack.check_handler(offset)?;
    let ty = type_for(scope, stack, tag, offset)?;
    stack.begin_handler(tag, ty, place)?;
    Ok(())
}

/// Begins a handler for all exceptions.
#[inline(never)]
pub(crate) fn begin_last_handler<S: Scope>(
    scope: &S,
    stack: &mut Stack,
    place: InstrLocId,
    offset: u64,
) -> Result<(), BodyError>
    requires { Shaped (blocks stack.old) (opens stack.old) }
    ensures ty { OnOk result (heading_of stack.new ≡ heading_of stack.old) }
    ensures entry { OnOk result (entry_of stack.new ≡ entry_of stack.old) }
    ensures turned { (op : Seen) → IsStep (S.sight scope.now) (ids_of (opens stack.old)) op steps.CatchAll → Turns (S.sight scope.now) op offset place stack.old stack.new result }
{
    stack.check_handler(offset)?;
    let ty = last_type_for(scope, stack, offset)?;
    stack.begin_last_handler(ty, place)?;
    Ok(())
}
