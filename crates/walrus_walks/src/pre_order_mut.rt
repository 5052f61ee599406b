//! The walk that changes.
ghost use Rattle.std.specs.Prelude.{◌≡◌, ◌<◌, ◌++◌, IfOk, OnErr, Some, map, length, slice_get};
ghost use Rattle.walrus_walks.specs.Tree.{IsNested, children};
ghost use Rattle.walrus_walks.specs.Changes.{Threads};
ghost use Rattle.walrus_walks.specs.Steps.{entering};
ghost use Rattle.walrus_walks.specs.Order.{last_first, held_by};
ghost use Rattle.walrus_walks.specs.Changing.{ItemChanged, SeqChanged, SeqVisited, Walked, WalkedPart};

use crate::nesting::push_all;
use crate::steps::Step;
use crate::visit_mut::VisitMut;
use crate::visitor_mut::VisitorMut;
use std::alloc::{AllocError, Global};
use walrus_arena::InstrSeqId;
use walrus_instr::{Instr, InstrLocId, InstrSeq};

// Hands over an instruction, then what it names.
fn visit_item<V: VisitorMut>(visitor: &mut V, item: &mut (Instr, InstrLocId))
    ensures changed { ItemChanged V.step visitor.old item.old visitor.new item.new }
    ensures keeps { children item.new.0 ≡ children item.old.0 }
{
    visitor.visit_instr_mut(&mut item.0, &mut item.1);
    item.0.visit_mut(visitor);
}

// Hands over the instructions.
fn visit_items<V: VisitorMut>(visitor: &mut V, items: &mut [(Instr, InstrLocId)])
    ensures changed { Threads (ItemChanged V.step) visitor.old items.old visitor.new items.new }
    ensures keeps { last_first items.new ≡ last_first items.old }
{
    for item in items.iter_mut() {
        visit_item(visitor, item);
    }
}

// Hands over a sequence with all in it, but for what it holds.
fn visit_seq<V: VisitorMut>(visitor: &mut V, seq: &mut InstrSeq)
    ensures changed { SeqChanged V.step visitor.old seq.old visitor.new seq.new }
    ensures keeps { held_by seq.new ≡ held_by seq.old }
{
    visitor.start_instr_seq_mut(seq);
    seq.visit_mut(visitor);
    visit_items(visitor, seq.instrs.as_mut_slice());
    visitor.end_instr_seq_mut(seq);
}

// Takes the sequence of this id, and then waits with what it holds.
fn visit_next<V: VisitorMut>(
    visitor: &mut V,
    seqs: &mut [InstrSeq],
    stack: &mut Vec<Step>,
    id: InstrSeqId,
) -> Result<(), AllocError>
    requires { id < length seqs.old }
    ensures visited { SeqVisited V.step (visitor.old, seqs.old) id (visitor.new, seqs.new) }
    ensures keeps { map held_by seqs.new ≡ map held_by seqs.old }
    ensures pushed { IfOk result (λ _. (s : _) → slice_get seqs.old id ≡ Some s → stack.new.items ≡ stack.old.items ++ entering (held_by s)) }
{
    let seq = &mut seqs[id.index()];
    visit_seq(visitor, seq);
    push_all(stack, seq.instrs.as_slice())?;
    Ok(())
}

/// Hands the visitor the start sequence and all that it holds, to be changed. A sequence is handed
/// over at its start, then what its block type names, its instructions, each with what it names,
/// and the sequence at its end; only then the sequences that it holds, those of its last
/// instruction first. Asks for a nested start, as `check_nesting` tests.
///
/// Takes time and memory in proportion to what is handed over; a sequence that several instructions
/// hold is handed over for each. Keeps its own list of what is left.
///
/// # Errors
///
/// Want of memory. The visitor has then been handed the first of those sequences, each whole; all
/// others are as they were. Each sequence still holds what it held.
pub fn dfs_pre_order_mut<V: VisitorMut>(
    alloc: Global,
    visitor: &mut V,
    seqs: &mut [InstrSeq],
    start: InstrSeqId,
) -> Result<(), AllocError>
    requires { IsNested seqs.old start }
    ensures walked { IfOk result (λ _. Walked V.step visitor.old seqs.old start visitor.new seqs.new) }
    ensures refused { OnErr result (WalkedPart V.step visitor.old seqs.old start visitor.new seqs.new) }
    ensures keeps { map held_by seqs.new ≡ map held_by seqs.old }
    ensures nested { IsNested seqs.new start }
{
    let mut stack = Vec::new(alloc);
    stack.push(Step::Enter(start))?;
    while let Some(step) = stack.pop() {
        visit_next(visitor, seqs, &mut stack, step.id())?;
    }
    Ok(())
}
