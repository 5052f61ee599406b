//! The test whether sequences form a tree.
ghost use Rattle.std.specs.Prelude.{◌≡◌, ◌+◌, ◌-◌, ◌<◌, ◌++◌, ◌↔◌, [], ◌∷◌, IfOk, MatchBool, length, slice_set};
ghost use Rattle.std.specs.Bool.{OnTrue};
ghost use Rattle.walrus_tree.specs.Trees.{IsTree};
ghost use Rattle.walrus_tree.specs.Testing.{Goes, Marked, all_within, entering, opened, work};
ghost use Rattle.walrus_builder.specs.walrus_walks.Tree.{children_in};
ghost use Rattle.walrus_tree.specs.declared.steps.Step.TheVariants.{Enter};
ghost use Rattle.walrus_tree.specs.declared.marks.Mark.TheVariants.{Done};

use crate::marks::{Mark, is_within};
use crate::steps::{Step, push_children};
use std::alloc::{AllocError, Global};
use walrus_arena::InstrSeqId;
use walrus_builder::instr::{Instr, InstrLocId, InstrSeq};

// Pushes the sequences that the instructions hold; false where a label names none that is open, of which there are so many.
// Each instruction is looked at once, since most of the time goes into fetching it.
fn look_through(
    instrs: &[(Instr, InstrLocId)],
    marks: &[Mark],
    depth: usize,
    steps: &mut Vec<Step>,
) -> Result<bool, AllocError>
    ensures within { IfOk result (λ fine. fine ≡ all_within marks.now depth instrs.now) }
    ensures pushed { IfOk result (λ fine. OnTrue fine (steps.new.items ≡ steps.old.items ++ entering (children_in instrs.now))) }
{
    for (instr, _) in instrs {
        if !is_within(instr, marks, depth) {
            return Ok(false);
        }
        push_children(steps, instr)?;
    }
    Ok(true)
}

// Enters a sequence; false where it is unknown or was entered before, or where a label in it names none that is open.
fn enter(
    seqs: &[InstrSeq],
    marks: &mut [Mark],
    steps: &mut Vec<Step>,
    depth: &mut usize,
    id: InstrSeqId,
) -> Result<bool, AllocError>
    requires sized { length marks.old ≡ length seqs.now }
    requires marked { Marked marks.old depth.old (opened [] steps.old.items) }
    ensures marked { IfOk result (λ fine. OnTrue fine (Marked marks.new depth.new (opened [] steps.new.items))) }
    ensures tested { IfOk result (λ fine. MatchBool fine
        (Goes seqs.now marks.old (steps.old.items ++ Enter id ∷ []) ↔ Goes seqs.now marks.new steps.new.items)
        (Goes seqs.now marks.old (steps.old.items ++ Enter id ∷ []) → ⊥)) }
    ensures less { IfOk result (λ fine. OnTrue fine (work seqs.now marks.new + length steps.new.items < work seqs.now marks.old + length steps.old.items + 1)) }
{
    let index = id.index();
    if index >= seqs.len() {
        return Ok(false);
    }
    match marks[index] {
        Mark::Open => Ok(false),
        Mark::Done => Ok(false),
        Mark::Fresh => {
            marks[index] = Mark::Open;
            steps.push(Step::Leave(id))?;
            *depth += 1;
            let instrs = seqs[index].instrs.as_slice();
            if !look_through(instrs, marks, *depth, steps)? {
                return Ok(false);
            }
            Ok(true)
        }
    }
}

// Leaves a sequence.
fn leave(marks: &mut [Mark], depth: &mut usize, id: InstrSeqId)
    requires known { id < length marks.old }
    requires deep { 0 < depth.old }
    ensures marks { marks.new ≡ slice_set marks.old id Done }
    ensures depth { depth.new ≡ depth.old - 1 }
{
    marks[id.index()] = Mark::Done;
    *depth -= 1;
}

// Takes one step; false where the sequences form no tree.
fn take(
    seqs: &[InstrSeq],
    marks: &mut [Mark],
    steps: &mut Vec<Step>,
    depth: &mut usize,
    step: Step,
) -> Result<bool, AllocError>
    requires sized { length marks.old ≡ length seqs.now }
    requires marked { Marked marks.old depth.old (opened [] (steps.old.items ++ step ∷ [])) }
    ensures marked { IfOk result (λ fine. OnTrue fine (Marked marks.new depth.new (opened [] steps.new.items))) }
    ensures tested { IfOk result (λ fine. MatchBool fine
        (Goes seqs.now marks.old (steps.old.items ++ step ∷ []) ↔ Goes seqs.now marks.new steps.new.items)
        (Goes seqs.now marks.old (steps.old.items ++ step ∷ []) → ⊥)) }
    ensures less { IfOk result (λ fine. OnTrue fine (work seqs.now marks.new + length steps.new.items < work seqs.now marks.old + length steps.old.items + 1)) }
{
    match step {
        Step::Enter(id) => enter(seqs, marks, steps, depth, id),
        Step::Leave(id) => {
            leave(marks, depth, id);
            Ok(true)
        }
    }
}

/// Whether the sequences that the entry reaches form a tree.
///
/// # Errors
///
/// Want of memory.
pub(crate) fn check_seqs(
    alloc: Global,
    seqs: &[InstrSeq],
    entry: InstrSeqId,
) -> Result<bool, AllocError>
    ensures { IfOk result (λ tree. MatchBool tree (IsTree seqs.now entry) (IsTree seqs.now entry → ⊥)) }
{
    let mut marks = vec![in alloc; Mark::Fresh; seqs.len()]?;
    let mut steps = vec![in alloc; Step::Enter(entry)]?;
    let mut depth = 0;
    while let Some(step) = steps.pop() {
        if !take(seqs, marks.as_mut_slice(), &mut steps, &mut depth, step)? {
            return Ok(false);
        }
    }
    Ok(true)
}
