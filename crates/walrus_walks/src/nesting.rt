//! The test whether sequences are nested.
ghost use Rattle.std.specs.Prelude.{◌≡◌, ℕ, ◌+◌, ◌<◌, ◌≤◌, ◌++◌, [], ◌∷◌, IfOk, MatchBool, length};
ghost use Rattle.std.specs.Bool.{OnTrue};
ghost use Rattle.walrus_walks.specs.Tree.{IsNested};
ghost use Rattle.walrus_walks.specs.declared.nesting.Mark.TheVariants.{Fresh};
ghost use Rattle.walrus_walks.specs.declared.steps.Step.TheVariants.{Enter, Resume};
ghost use Rattle.walrus_walks.specs.Checks.{Checks, IsKnown, pushed, mark_at, work};

use crate::steps::{Step, push_children};
use std::alloc::{AllocError, Global};
use walrus_arena::InstrSeqId;
use walrus_instr::{Instr, InstrLocId, InstrSeq};

/// How far a sequence is tested.
#[derive(Clone, Copy)]
enum Mark {
    Fresh,
    Open,
    Done,
}

/// Pushes the sequences that the instructions hold, so that those of the last are entered next.
///
/// # Errors
///
/// Want of memory. Some may have been pushed.
pub(crate) fn push_all(
    stack: &mut Vec<Step>,
    instrs: &[(Instr, InstrLocId)],
) -> Result<(), AllocError>
    ensures { IfOk result (λ _. stack.new.items ≡ stack.old.items ++ pushed instrs.now) }
{
    for (instr, _) in instrs {
        push_children(stack, instr)?;
    }
    Ok(())
}

fn fresh_marks(alloc: Global, count: usize) -> Result<Vec<Mark>, AllocError>
    ensures fresh { IfOk result (λ marks. (k : ℕ) → mark_at marks.items k ≡ Fresh) }
    ensures sized { IfOk result (λ marks. length marks.items ≡ count) }
{
    let mut marks = Vec::new(alloc);
    for _index in 0..count {
        marks.push(Mark::Fresh)?;
    }
    Ok(marks)
}

// Enters a sequence; false where it is unknown, or is entered within itself.
fn enter(
    seqs: &[InstrSeq],
    marks: &mut [Mark],
    stack: &mut Vec<Step>,
    id: InstrSeqId,
) -> Result<bool, AllocError>
    requires { length marks.old ≡ length seqs.now }
    ensures checks { IfOk result (λ fine. (start : ℕ) → Checks seqs.now start marks.old (stack.old.items ++ Enter id ∷ [])
        → MatchBool fine (Checks seqs.now start marks.new stack.new.items) (IsNested seqs.now start → ⊥)) }
    ensures less { IfOk result (λ fine. OnTrue fine (work seqs.now marks.new + length stack.new.items < work seqs.now marks.old + length stack.old.items + 1)) }
{
    let index = id.index();
    if index >= seqs.len() {
        return Ok(false);
    }
    match marks[index] {
        Mark::Done => Ok(true),
        Mark::Open => Ok(false),
        Mark::Fresh => {
            marks[index] = Mark::Open;
            stack.push(Step::Resume(id, 0))?;
            push_all(stack, seqs[index].instrs.as_slice())?;
            Ok(true)
        }
    }
}

// Takes one step; false where the sequences are not nested.
fn check_step(
    seqs: &[InstrSeq],
    marks: &mut [Mark],
    stack: &mut Vec<Step>,
    step: Step,
) -> Result<bool, AllocError>
    requires sized { length marks.old ≡ length seqs.now }
    requires known { IsKnown seqs.now step }
    ensures checks { IfOk result (λ fine. (start : ℕ) → Checks seqs.now start marks.old (stack.old.items ++ step ∷ [])
        → MatchBool fine (Checks seqs.now start marks.new stack.new.items) (IsNested seqs.now start → ⊥)) }
    ensures less { IfOk result (λ fine. OnTrue fine (work seqs.now marks.new + length stack.new.items < work seqs.now marks.old + length stack.old.items + 1)) }
{
    match step {
        Step::Enter(id) => enter(seqs, marks, stack, id),
        Step::Resume(id, _) => {
            marks[id.index()] = Mark::Done;
            Ok(true)
        }
    }
}

/// Whether each sequence that is reached from the start is known, and none reaches itself. A walk
/// asks for that. A sequence that several instructions hold is fine, and is tested once.
///
/// Takes time and memory in proportion to the sequences and instructions.
///
/// # Errors
///
/// Want of memory.
pub fn check_nesting(
    alloc: Global,
    seqs: &[InstrSeq],
    start: InstrSeqId,
) -> Result<bool, AllocError>
    ensures { IfOk result (λ nested. MatchBool nested (IsNested seqs.now start) (IsNested seqs.now start → ⊥)) }
{
    let mut marks = fresh_marks(alloc, seqs.len())?;
    let mut stack = Vec::new(alloc);
    stack.push(Step::Enter(start))?;
    while let Some(step) = stack.pop() {
        if !check_step(seqs, marks.as_mut_slice(), &mut stack, step)? {
            return Ok(false);
        }
    }
    Ok(true)
}
