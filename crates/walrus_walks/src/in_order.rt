//! The walk that reads.
ghost use Rattle.std.specs.Prelude.{◌≡◌, ◌++◌, ◌<◌, [], ◌∷◌, IfOk, OnErr, Some, length, slice_get};
ghost use Rattle.std.specs.List.{FoldsTo};
ghost use Rattle.walrus_walks.specs.declared.steps.Step.TheVariants.{Enter, Resume};
ghost use Rattle.walrus_walks.specs.Tree.{IsNested};
ghost use Rattle.walrus_walks.specs.Fronts.{FoldsFront};
ghost use Rattle.walrus_walks.specs.Walk.{body_walk, walk};
ghost use Rattle.walrus_walks.specs.Steps.{AreSteps, Told, ahead, left, id_of};

use crate::steps::{Step, push_children};
use crate::visit::Visit;
use crate::visitor::Visitor;
use std::alloc::{AllocError, Global};
use walrus_arena::InstrSeqId;
use walrus_instr::InstrSeq;

// Begins a sequence. What is to follow is pushed first: where that is refused, nothing is told.
fn enter<V: Visitor>(
    visitor: &mut V,
    seqs: &[InstrSeq],
    stack: &mut Vec<Step>,
    id: InstrSeqId,
) -> Result<(), AllocError>
    requires nested { IsNested seqs.now id }
    requires steps { AreSteps seqs.now stack.old.items }
    ensures told { IfOk result (λ _. Told V.step visitor.old (ahead seqs.now (Enter id) ++ left seqs.now stack.old.items) visitor.new (left seqs.now stack.new.items)) }
    ensures steps { IfOk result (λ _. AreSteps seqs.now stack.new.items) }
    ensures refused { OnErr result (visitor.new ≡ visitor.old) }
{
    let seq = &seqs[id.index()];
    stack.push(Step::Resume(id, 0))?;
    visitor.start_instr_seq(seq);
    seq.visit(visitor);
    Ok(())
}

// Goes on with a sequence: with its instruction at the index, or past the last with its end.
fn resume<V: Visitor>(
    visitor: &mut V,
    seqs: &[InstrSeq],
    stack: &mut Vec<Step>,
    id: InstrSeqId,
    index: usize,
) -> Result<(), AllocError>
    requires nested { IsNested seqs.now id }
    requires steps { AreSteps seqs.now stack.old.items }
    ensures told { IfOk result (λ _. Told V.step visitor.old (ahead seqs.now (Resume id index) ++ left seqs.now stack.old.items) visitor.new (left seqs.now stack.new.items)) }
    ensures steps { IfOk result (λ _. AreSteps seqs.now stack.new.items) }
    ensures refused { OnErr result (visitor.new ≡ visitor.old) }
{
    let seq = &seqs[id.index()];
    let instrs = seq.instrs.as_slice();
    if index < instrs.len() {
        let (instr, place) = &instrs[index];
        stack.push(Step::Resume(id, index + 1))?;
        push_children(stack, instr)?;
        visitor.visit_instr(instr, place);
        instr.visit(visitor);
    } else {
        visitor.end_instr_seq(seq);
    }
    Ok(())
}

// Takes one step.
fn turn<V: Visitor>(
    visitor: &mut V,
    seqs: &[InstrSeq],
    stack: &mut Vec<Step>,
    step: Step,
) -> Result<(), AllocError>
    requires nested { IsNested seqs.now (id_of step) }
    requires steps { AreSteps seqs.now stack.old.items }
    ensures told { IfOk result (λ _. Told V.step visitor.old (ahead seqs.now step ++ left seqs.now stack.old.items) visitor.new (left seqs.now stack.new.items)) }
    ensures steps { IfOk result (λ _. AreSteps seqs.now stack.new.items) }
    ensures refused { OnErr result (visitor.new ≡ visitor.old) }
{
    match step {
        Step::Enter(id) => enter(visitor, seqs, stack, id),
        Step::Resume(id, index) => resume(visitor, seqs, stack, id, index),
    }
}

// Takes the steps that are left, the last of the list next.
fn follow<V: Visitor>(
    visitor: &mut V,
    seqs: &[InstrSeq],
    stack: &mut Vec<Step>,
) -> Result<(), AllocError>
    requires { AreSteps seqs.now stack.old.items }
    ensures walked { IfOk result (λ _. FoldsTo V.step visitor.old (left seqs.now stack.old.items) visitor.new) }
    ensures refused { OnErr result (FoldsFront V.step visitor.old (left seqs.now stack.old.items) visitor.new) }
{
    while let Some(step) = stack.pop() {
        turn(visitor, seqs, stack, step)?;
    }
    Ok(())
}

/// Tells the visitor of the start sequence and of all that it holds, in the order of the text: each
/// sequence's start, what its block type names, its instructions, its end; each instruction with
/// what it names, then what it holds. Asks for a nested start, as `check_nesting` tests.
///
/// Takes time and memory in proportion to what is told; a sequence that several instructions hold
/// is told for each. Keeps its own list of what is left.
///
/// # Errors
///
/// Want of memory. The visitor has then been told a first part of that, and nothing else.
pub fn dfs_in_order<V: Visitor>(
    alloc: Global,
    visitor: &mut V,
    seqs: &[InstrSeq],
    start: InstrSeqId,
) -> Result<(), AllocError>
    requires { IsNested seqs.now start }
    ensures walked { IfOk result (λ _. FoldsTo V.step visitor.old (walk seqs.now start) visitor.new) }
    ensures refused { OnErr result (FoldsFront V.step visitor.old (walk seqs.now start) visitor.new) }
{
    let mut stack = Vec::new(alloc);
    stack.push(Step::Enter(start))?;
    follow(visitor, seqs, &mut stack)?;
    Ok(())
}

/// Tells the visitor of a body by its own sequence, as `dfs_in_order` does, but for what that sequence's block
/// type names: the type of a body's own sequence is no reference.
///
/// # Errors
///
/// Want of memory. The visitor has then been told a first part of that, and nothing else.
pub fn dfs_body_in_order<V: Visitor>(
    alloc: Global,
    visitor: &mut V,
    seqs: &[InstrSeq],
    start: InstrSeqId,
) -> Result<(), AllocError>
    requires { IsNested seqs.now start }
    ensures walked { IfOk result (λ _. FoldsTo V.step visitor.old (body_walk seqs.now start) visitor.new) }
    ensures refused { OnErr result (FoldsFront V.step visitor.old (body_walk seqs.now start) visitor.new) }
{
    let mut stack = Vec::new(alloc);
    stack.push(Step::Resume(start, 0))?;
    visitor.start_instr_seq(&seqs[start.index()]);
    follow(visitor, seqs, &mut stack)?;
    Ok(())
}
