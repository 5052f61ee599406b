//! The list of what a walk has still to do.
ghost use Rattle.std.specs.Prelude.{◌≡◌, [], ◌∷◌, ◌++◌, IfOk};
ghost use Rattle.walrus_walks.specs.Tree.{children, handler, handlers};
ghost use Rattle.walrus_walks.specs.Steps.{entering, id_of};

use std::alloc::AllocError;
use walrus_arena::InstrSeqId;
use walrus_instr::{Instr, LegacyCatch};

/// What a walk has to do.
#[derive(Clone, Copy)]
pub enum Step {
    /// Begin a sequence.
    Enter(InstrSeqId),
    /// Go on with a sequence at this instruction.
    Resume(InstrSeqId, usize),
}

impl Step {
    /// The sequence that it is of.
    pub(crate) fn id(self) -> InstrSeqId
        ensures { result ≡ id_of self }
    {
        match self {
            Step::Enter(id) => id,
            Step::Resume(id, _) => id,
        }
    }
}

// Pushes the handler, where there is one.
fn push_handler(stack: &mut Vec<Step>, catch: &LegacyCatch) -> Result<(), AllocError>
    ensures { IfOk result (λ _. stack.new.items ≡ stack.old.items ++ entering (handler catch.now)) }
{
    match catch {
        LegacyCatch::Catch { handler, .. } => stack.push(Step::Enter(*handler))?,
        LegacyCatch::CatchAll { handler } => stack.push(Step::Enter(*handler))?,
        LegacyCatch::Delegate { .. } => {}
    }
    Ok(())
}

// Pushes the handlers, so that the first is entered next.
fn push_handlers(stack: &mut Vec<Step>, catches: &[LegacyCatch]) -> Result<(), AllocError>
    ensures { IfOk result (λ _. stack.new.items ≡ stack.old.items ++ entering (handlers catches.now)) }
{
    let mut rest = catches;
    while let Some((last, front)) = rest.split_last() {
        push_handler(stack, last)?;
        rest = front;
    }
    Ok(())
}

// Pushes the two arms of an `if`, so that the first is entered next.
fn push_arms(
    stack: &mut Vec<Step>,
    consequent: InstrSeqId,
    alternative: InstrSeqId,
) -> Result<(), AllocError>
    ensures { IfOk result (λ _. stack.new.items ≡ stack.old.items ++ entering (consequent ∷ alternative ∷ [])) }
{
    stack.push(Step::Enter(alternative))?;
    stack.push(Step::Enter(consequent))?;
    Ok(())
}

// Pushes the body of a legacy `try` and its handlers, so that the body is entered next.
fn push_try(
    stack: &mut Vec<Step>,
    seq: InstrSeqId,
    catches: &[LegacyCatch],
) -> Result<(), AllocError>
    ensures { IfOk result (λ _. stack.new.items ≡ stack.old.items ++ entering (seq ∷ handlers catches.now)) }
{
    push_handlers(stack, catches)?;
    stack.push(Step::Enter(seq))?;
    Ok(())
}

/// Pushes the sequences that an instruction holds, so that the first is entered next.
///
/// # Errors
///
/// Want of memory. Some may have been pushed.
pub(crate) fn push_children(stack: &mut Vec<Step>, instr: &Instr) -> Result<(), AllocError>
    ensures { IfOk result (λ _. stack.new.items ≡ stack.old.items ++ entering (children instr.now)) }
{
    match instr {
        Instr::Block { seq } => stack.push(Step::Enter(*seq))?,
        Instr::Loop { seq } => stack.push(Step::Enter(*seq))?,
        Instr::TryTable { seq, .. } => stack.push(Step::Enter(*seq))?,
        Instr::IfElse {
            consequent,
            alternative,
        } => push_arms(stack, *consequent, *alternative)?,
        Instr::Try { seq, catches } => push_try(stack, *seq, catches.as_slice())?,
        _ => {}
    }
    Ok(())
}
