//! What an operator does to the open sequences of a body.

ghost use Rattle.std.specs.Prelude.{◌≡◌, ◌-◌, ◌&&◌, ℕ, List, length, not, true, false, Some};
ghost use Rattle.wasm_operators.specs.Operators.{Seen, flow_of};
ghost use Rattle.walrus_body_steps.specs.wasm_normal_form.Roles.{cuts_in};
ghost use Rattle.walrus_operators.specs.Immediates.{kind_is};
ghost use Rattle.walrus_operators.specs.Operators.{seen};
ghost use Rattle.walrus_body_steps.specs.walrus_body_rules.Rules.{items_test};
ghost use Rattle.walrus_body_steps.specs.walrus_body_rules.Sights.{Sight};
ghost use Rattle.walrus_body_steps.specs.Meanings.{IsOpener, OpensOf};
ghost use Rattle.walrus_body_operands.specs.Asked.{AnswersIf, Meets};
ghost use Rattle.walrus_body_operands.specs.Listed.{IsListed, RunsListed, accessed, begins_block, holds_list, keeps_on, known_labels, names_alone, names_label, names_tag, opened_by, opens_plain, parts};
ghost use Rattle.walrus_body_operands.specs.Steps.{IsStep};

use crate::faults::no_item;
use crate::labels::Labels;
use crate::opens::{tag_id, try_table};
use crate::runs::run;
use crate::scope::Scope;
use crate::types::block_type;
use std::alloc::Global;
use walrus_arena::TagId;
use walrus_body_env::BodyError;
use walrus_body_stack::body_nesting::Opener;
use walrus_body_stack::cuts;
use walrus_instr::{Instr, InstrSeqType};
use walrus_operators::{Immediates, Operator};
use wasm_formats::Space;
use wasm_operators::{BlockType, Flow};

/// What an operator does to the open sequences of a body.
#[derive(Drop)]
pub enum Step {
    /// Nothing: `nop`.
    Pass,
    /// It stands as this instruction, and may cut off what follows it in its sequence.
    Run { instr: Instr, cuts: bool },
    /// It opens a block of this type.
    Open { opener: Opener, ty: InstrSeqType },
    /// It begins the other part of an `if`.
    Else,
    /// It begins a handler for the exceptions of this tag.
    Catch { tag: TagId },
    /// It begins a handler for all exceptions.
    CatchAll,
    /// It ends a `try`, and hands exceptions to the block of this label.
    Delegate { depth: u32 },
    /// It ends a block, or the body.
    End,
}

// The block type of an operator that has it alone.
fn block_of(immediates: &Immediates) -> BlockType
    requires { begins_block (kind_is immediates.now) ≡ true }
    ensures { immediates.now ≡ Immediates.Block result }
{
    match immediates {
        Immediates::Block(ty) => *ty,
        _ => unreachable!(),
    }
}

// The tag of an operator that names one alone.
fn tag_of(immediates: &Immediates) -> u32
    requires { names_tag (kind_is immediates.now) ≡ true }
    ensures { immediates.now ≡ Immediates.Tag result }
{
    match immediates {
        Immediates::Tag(tag) => *tag,
        _ => unreachable!(),
    }
}

// The label of an operator that names one alone.
fn label_of(immediates: &Immediates) -> u32
    requires { names_label (kind_is immediates.now) ≡ true }
    ensures { immediates.now ≡ Immediates.Label result }
{
    match immediates {
        Immediates::Label(depth) => *depth,
        _ => unreachable!(),
    }
}

#[inline(always)]
fn open<S: Scope>(scope: &S, op: &Operator, opener: Opener, offset: u64) -> Result<Step, BodyError>
    requires block { begins_block (kind_is op.now.immediates) ≡ true }
    requires opens { (s : Sight) (around : List ℕ) → IsOpener s around (seen op.now) opener }
    ensures { (labels : ℕ) (around : List ℕ) → Meets result (items_test (S.sight scope.now) labels (seen op.now)) offset (IsStep (S.sight scope.now) around (seen op.now)) }
{
    match block_type(scope, block_of(&op.immediates), offset) {
        Ok(ty) => Ok(Step::Open { opener, ty }),
        Err(fault) => Err(fault),
    }
}

fn open_table<S: Scope, L: Labels>(
    scope: &S,
    alloc: Global,
    op: &Operator,
    labels: &L,
    offset: u64,
) -> Result<Step, BodyError>
    requires table { (opened_by (kind_is op.now.immediates) && not (begins_block (kind_is op.now.immediates))) ≡ true }
    requires opens { flow_of op.now.code ≡ Some Flow.OpensTryTable }
    ensures { AnswersIf (holds_list (kind_is op.now.immediates)) result (items_test (S.sight scope.now) (length (L.ids labels.now)) (seen op.now)) offset (IsStep (S.sight scope.now) (L.ids labels.now) (seen op.now)) }
{
    match &op.immediates {
        Immediates::TryTable(ty, clauses) => {
            match try_table(alloc, scope, *ty, clauses.as_slice(), labels, offset) {
                Ok(found) => Ok(Step::Open {
                    opener: Opener::TryTable(found.0),
                    ty: found.1,
                }),
                Err(fault) => Err(fault),
            }
        }
        _ => unreachable!(),
    }
}

fn catch<S: Scope>(scope: &S, op: &Operator, offset: u64) -> Result<Step, BodyError>
    requires tag { names_tag (kind_is op.now.immediates) ≡ true }
    requires catches { flow_of op.now.code ≡ Some Flow.Catch }
    ensures { (labels : ℕ) (around : List ℕ) → Meets result (items_test (S.sight scope.now) labels (seen op.now)) offset (IsStep (S.sight scope.now) around (seen op.now)) }
{
    match tag_id(scope, tag_of(&op.immediates), offset) {
        Ok(tag) => Ok(Step::Catch { tag }),
        Err(fault) => Err(fault),
    }
}

fn delegate<L: Labels>(op: &Operator, labels: &L, offset: u64) -> Result<Step, BodyError>
    requires label { names_label (kind_is op.now.immediates) ≡ true }
    requires hands { flow_of op.now.code ≡ Some Flow.Delegate }
    ensures { (s : Sight) → Meets result (items_test s (length (L.ids labels.now) - 1) (seen op.now)) offset (IsStep s (L.ids labels.now) (seen op.now)) }
{
    let depth = label_of(&op.immediates);
    if (depth as usize) < labels.outer_count() {
        Ok(Step::Delegate { depth })
    } else {
        Err(no_item(Space::Label, offset))
    }
}

// This and what follows for the frequent kinds of immediates are functions of their own: what the others keep on the stack is then no
// part of each call.
#[inline(never)]
fn stand<S: Scope, L: Labels>(
    scope: &S,
    alloc: Global,
    op: &Operator,
    labels: &L,
    cut: bool,
    offset: u64,
) -> Result<Step, BodyError>
    requires runs { RunsListed op.now }
    requires cut { cut ≡ cuts_in (flow_of op.now.code) }
    ensures { AnswersIf (holds_list (kind_is op.now.immediates)) result (items_test (S.sight scope.now) (length (L.ids labels.now)) (seen op.now)) offset (IsStep (S.sight scope.now) (L.ids labels.now) (seen op.now)) }
{
    match run(scope, alloc, op, labels, offset) {
        Ok(instr) => Ok(Step::Run { instr, cuts: cut }),
        Err(fault) => Err(fault),
    }
}

/// The instruction of an operator that stands in a sequence, and behind which the next is reached. All of it is inlined: where the form of
/// the immediates is known, no other is tested.
///
/// # Errors
///
/// As [`step_of`].
#[inline(always)]
pub fn instr_on<S: Scope, L: Labels>(
    scope: &S,
    alloc: Global,
    op: &Operator,
    labels: &L,
    offset: u64,
) -> Result<Instr, BodyError>
    requires listed { IsListed op.now }
    requires on { keeps_on (flow_of op.now.code) ≡ true }
    ensures { AnswersIf (holds_list (kind_is op.now.immediates)) result (items_test (S.sight scope.now) (known_labels (flow_of op.now.code) (length (L.ids labels.now))) (seen op.now)) offset (λ instr. IsStep (S.sight scope.now) (L.ids labels.now) (seen op.now) (Step.Run instr false)) }
{
    run(scope, alloc, op, labels, offset)
}

/// What an operator does that ends a block, or the body, or begins the other part of an `if`: it names nothing, so nothing is asked of what
/// is around it. As [`step_of`], it is told where the operator stands, of which its contract speaks.
///
/// # Errors
///
/// None.
#[inline(always)]
pub fn part_of<S: Scope, L: Labels>(
    flow: Flow,
    scope: &S,
    op: &Operator,
    labels: &L,
    offset: u64,
) -> Result<Step, BodyError>
    requires listed { IsListed op.now }
    requires part { parts flow ≡ true }
    requires does { flow_of op.now.code ≡ Some flow }
    ensures { AnswersIf (holds_list (kind_is op.now.immediates)) result (items_test (S.sight scope.now) (known_labels (flow_of op.now.code) (length (L.ids labels.now))) (seen op.now)) offset (IsStep (S.sight scope.now) (L.ids labels.now) (seen op.now)) }
{
    match flow {
        Flow::End => Ok(Step::End),
        Flow::Else => Ok(Step::Else),
        _ => unreachable!(),
    }
}

/// How an operator begins that opens a block, a loop or an `if`.
#[inline(always)]
pub fn opener_of(flow: Flow) -> Opener
    requires { opens_plain flow ≡ true }
    ensures { (s : Sight) (around : List ℕ) (op : Seen) → flow_of op.code ≡ Some flow → IsOpener s around op result }
{
    match flow {
        Flow::OpensBlock => Opener::Block,
        Flow::OpensLoop => Opener::Loop,
        Flow::OpensIf => Opener::If,
        _ => unreachable!(),
    }
}

/// The type of the block that an operator opens which names nothing else.
///
/// # Errors
///
/// As [`step_of`].
#[inline(always)]
pub fn opened_type<S: Scope>(
    scope: &S,
    op: &Operator,
    offset: u64,
) -> Result<InstrSeqType, BodyError>
    requires { begins_block (kind_is op.now.immediates) ≡ true }
    ensures { (labels : ℕ) → Meets result (items_test (S.sight scope.now) labels (seen op.now)) offset (OpensOf (S.sight scope.now) (seen op.now)) }
{
    match block_type(scope, block_of(&op.immediates), offset) {
        Ok(ty) => Ok(ty),
        Err(fault) => Err(fault),
    }
}

/// What an operator of the table does, at this offset inside these sequences.
///
/// # Errors
///
/// At this offset, where what the operator names isn't there or may not stand there: `Index`, `TypeForm` (of a block type), `Position`
/// (a data segment with no data count), `Unsupported` and `Bounds`, of those that are due the one of the lowest number, and of `Index`
/// the first in the order of the bytes. Want of memory, for the labels of a `br_table` and the clauses of a `try_table` alone.
#[inline(never)]
pub fn step_of<S: Scope, L: Labels>(
    scope: &S,
    alloc: Global,
    op: &Operator,
    labels: &L,
    offset: u64,
) -> Result<Step, BodyError>
    requires { IsListed op.now }
    ensures { AnswersIf (holds_list (kind_is op.now.immediates)) result (items_test (S.sight scope.now) (known_labels (flow_of op.now.code) (length (L.ids labels.now))) (seen op.now)) offset (IsStep (S.sight scope.now) (L.ids labels.now) (seen op.now)) }
{
    let Some(flow) = op.code.flow() else {
        return stand(scope, alloc, op, labels, false, offset);
    };
    match flow {
        Flow::Passes => Ok(Step::Pass),
        Flow::Else => Ok(Step::Else),
        Flow::CatchAll => Ok(Step::CatchAll),
        Flow::End => Ok(Step::End),
        Flow::OpensBlock => open(scope, op, Opener::Block, offset),
        Flow::OpensLoop => open(scope, op, Opener::Loop, offset),
        Flow::OpensIf => open(scope, op, Opener::If, offset),
        Flow::OpensTry => open(scope, op, Opener::Try, offset),
        Flow::OpensTryTable => open_table(scope, alloc, op, labels, offset),
        Flow::Catch => catch(scope, op, offset),
        Flow::Delegate => delegate(op, labels, offset),
        Flow::Goes
        | Flow::Traps
        | Flow::Branches
        | Flow::Chooses
        | Flow::Selects
        | Flow::Returns
        | Flow::Calls
        | Flow::CallsIndirectly
        | Flow::TailCalls
        | Flow::TailCallsIndirectly
        | Flow::Throws
        | Flow::ThrowsOrTraps => stand(scope, alloc, op, labels, cuts(Some(flow)), offset),
    }
}
