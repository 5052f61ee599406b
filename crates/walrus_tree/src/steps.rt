//! The list of what the test has still to do.
ghost use Rattle.std.specs.Prelude.{◌≡◌, [], ◌∷◌, ◌++◌, IfOk};
ghost use Rattle.walrus_builder.specs.walrus_walks.Tree.{children, handler, handlers};
ghost use Rattle.walrus_tree.specs.Testing.{entering};

use std::alloc::AllocError;
use walrus_arena::InstrSeqId;
use walrus_builder::instr::{Instr, LegacyCatch};

/// What the test has to do.
#[derive(Clone, Copy)]
pub(crate) enum Step {
    /// Begin a sequence.
    Enter(InstrSeqId),
    /// End a sequence.
    Leave(InstrSeqId),
}

// Pushes the handler, where there is one.
fn push_handler(steps: &mut Vec<Step>, part: &LegacyCatch) -> Result<(), AllocError>
    ensures { IfOk result (λ _. steps.new.items ≡ steps.old.items ++ entering (handler part.now)) }
{
    match part {
        LegacyCatch::Catch { handler, .. } => steps.push(Step::Enter(*handler))?,
        LegacyCatch::CatchAll { handler } => steps.push(Step::Enter(*handler))?,
        LegacyCatch::Delegate { .. } => {}
    }
    Ok(())
}

fn push_handlers(steps: &mut Vec<Step>, parts: &[LegacyCatch]) -> Result<(), AllocError>
    ensures { IfOk result (λ _. steps.new.items ≡ steps.old.items ++ entering (handlers parts.now)) }
{
    for part in parts {
        push_handler(steps, part)?;
    }
    Ok(())
}

/// Pushes the sequences that an instruction holds.
///
/// # Errors
///
/// Want of memory. Some may have been pushed.
pub(crate) fn push_children(steps: &mut Vec<Step>, instr: &Instr) -> Result<(), AllocError>
    ensures { IfOk result (λ _. steps.new.items ≡ steps.old.items ++ entering (children instr.now)) }
{
    match instr {
        Instr::Block { seq } => steps.push(Step::Enter(*seq))?,
        Instr::Loop { seq } => steps.push(Step::Enter(*seq))?,
        Instr::TryTable { seq, .. } => steps.push(Step::Enter(*seq))?,
        Instr::IfElse {
            consequent,
            alternative,
        } => {
            steps.push(Step::Enter(*consequent))?;
            steps.push(Step::Enter(*alternative))?;
        }
        Instr::Try { seq, catches } => {
            steps.push(Step::Enter(*seq))?;
            push_handlers(steps, catches.as_slice())?;
        }
        _ => {}
    }
    Ok(())
}
