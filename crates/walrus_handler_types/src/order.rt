//! The sequences of a body that forms a tree, in the order of its text.

ghost use Rattle.std.specs.Prelude.{◌≡◌, ◌++◌, IfOk, reverse};
ghost use Rattle.walrus_handlers.specs.walrus_handler_laws.Handlers.{tree_ids};
ghost use Rattle.walrus_handlers.specs.walrus_tree.Trees.{IsTree};
ghost use Rattle.walrus_handlers.specs.walrus_tree.walrus_walks.Tree.{children, children_in, handler, handlers};

use std::alloc::{AllocError, Global};
use walrus_arena::InstrSeqId;
use walrus_instr::{Instr, InstrLocId, InstrSeq, LegacyCatch};

// Pushes the handler, where there is one.
fn push_handler(held: &mut Vec<InstrSeqId>, part: &LegacyCatch) -> Result<(), AllocError>
    ensures { IfOk result (λ _. held.new.items ≡ held.old.items ++ handler part.now) }
{
    match part {
        LegacyCatch::Catch { handler, .. } => held.push(*handler)?,
        LegacyCatch::CatchAll { handler } => held.push(*handler)?,
        LegacyCatch::Delegate { .. } => {}
    }
    Ok(())
}

fn push_handlers(held: &mut Vec<InstrSeqId>, parts: &[LegacyCatch]) -> Result<(), AllocError>
    ensures { IfOk result (λ _. held.new.items ≡ held.old.items ++ handlers parts.now) }
{
    for part in parts {
        push_handler(held, part)?;
    }
    Ok(())
}

// Pushes the sequences that an instruction holds, in their order.
fn push_children(held: &mut Vec<InstrSeqId>, instr: &Instr) -> Result<(), AllocError>
    ensures { IfOk result (λ _. held.new.items ≡ held.old.items ++ children instr.now) }
{
    match instr {
        Instr::Block { seq } => held.push(*seq)?,
        Instr::Loop { seq } => held.push(*seq)?,
        Instr::TryTable { seq, .. } => held.push(*seq)?,
        Instr::IfElse {
            consequent,
            alternative,
        } => {
            held.push(*consequent)?;
            held.push(*alternative)?;
        }
        Instr::Try { seq, catches } => {
            held.push(*seq)?;
            push_handlers(held, catches.as_slice())?;
        }
        _ => {}
    }
    Ok(())
}

// The sequences that these instructions hold, in their order.
fn held_by(alloc: Global, instrs: &[(Instr, InstrLocId)]) -> Result<Vec<InstrSeqId>, AllocError>
    ensures { IfOk result (λ held. held.items ≡ children_in instrs.now) }
{
    let mut held = Vec::new(alloc);
    for (instr, _) in instrs {
        push_children(&mut held, instr)?;
    }
    Ok(held)
}

// Pushes the sequences that these instructions hold, the last first.
fn push_held(
    alloc: Global,
    left: &mut Vec<InstrSeqId>,
    instrs: &[(Instr, InstrLocId)],
) -> Result<(), AllocError>
    ensures { IfOk result (λ _. left.new.items ≡ left.old.items ++ reverse (children_in instrs.now)) }
{
    let mut held = held_by(alloc, instrs)?;
    held.reverse();
    left.extend_from_slice(held.as_slice())?;
    Ok(())
}

/// The sequences of a body that forms a tree, in the order of its text. Takes time in proportion to them and to their instructions.
///
/// # Errors
///
/// Want of memory.
pub(crate) fn tree_order(alloc: Global, seqs: &[InstrSeq]) -> Result<Vec<InstrSeqId>, AllocError>
    requires { IsTree seqs.now 0 }
    ensures { IfOk result (λ order. (t : IsTree seqs.now 0) → order.items ≡ tree_ids t) }
{
    let mut order = Vec::new(alloc);
    // What is still to come, the last first.
    let mut left = vec![in alloc; InstrSeqId::from_index(0)]?;
    while let Some(id) = left.pop() {
        order.push(id)?;
        push_held(alloc, &mut left, seqs[id.index()].instrs.as_slice())?;
    }
    Ok(order)
}
