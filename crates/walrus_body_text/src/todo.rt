//! What is left to do.

ghost use Rattle.std.specs.Prelude.{◌≡◌, List, [], ◌∷◌, ◌++◌, OnOk, IfOk};
ghost use Rattle.walrus_body_text.specs.Doing.{closer_before, entering, handling};

use crate::todos::Todos;
use std::alloc::AllocError;
use walrus_arena::{InstrSeqId, TagId};
use walrus_tree::instr::{Instr, InstrLocId, LegacyCatch};

/// What stands behind a sequence.
#[derive(Clone, Copy)]
pub enum Closer {
    /// The other part of an `if` begins.
    Else,
    /// The handler of a legacy `try` for this tag begins.
    Catch(TagId),
    /// The handler of a legacy `try` for all exceptions begins.
    CatchAll,
    /// A legacy `try` ends, and hands its exceptions on by this label.
    Delegate(u32),
    /// A block ends, or the body.
    End,
}

/// A position in an open sequence, and what stands behind that.
#[derive(Clone, Copy)]
pub struct Place {
    /// The sequence.
    pub seq: InstrSeqId,
    /// The position in it of what is next.
    pub next: usize,
    /// What stands behind the sequence.
    pub closer: Closer,
}

/// Something that is left to do.
#[derive(Clone, Copy)]
pub enum Todo {
    /// A sequence, and what stands behind it.
    Enter(InstrSeqId, Closer),
    /// What an open sequence has from a position on.
    Inside(Place),
}

/// What stands where the list has come to.
#[derive(Clone, Copy)]
pub enum Met {
    /// The instruction at a position of a sequence.
    AnInstr(InstrSeqId, usize),
    /// The end of a sequence, and what stands behind that, at this location.
    AnEnd(Closer, InstrLocId),
}

#[inline(always)]
fn push_enter(todo: &mut Todos, seq: InstrSeqId, closer: Closer) -> Result<(), AllocError>
    ensures { OnOk result (todo.new ≡ todo.old ++ Todo.Enter seq closer ∷ []) }
{
    todo.push(Todo::Enter(seq, closer))
}

// Pushes a part of a legacy `try`, behind which this stands; gives what stands before it.
fn push_part(todo: &mut Todos, part: LegacyCatch, closer: Closer) -> Result<Closer, AllocError>
    ensures { IfOk result (λ before. (parts : List LegacyCatch) → closer ≡ closer_before parts →
        (before ≡ closer_before (part ∷ parts)) × ((ts : List Todo) → todo.old ≡ ts ++ handling parts → todo.new ≡ ts ++ handling (part ∷ parts))) }
{
    match part {
        LegacyCatch::Catch { tag, handler } => {
            push_enter(todo, handler, closer)?;
            Ok(Closer::Catch(tag))
        }
        LegacyCatch::CatchAll { handler } => {
            push_enter(todo, handler, closer)?;
            Ok(Closer::CatchAll)
        }
        LegacyCatch::Delegate { relative_depth } => Ok(Closer::Delegate(relative_depth)),
    }
}

// Pushes the handlers of the parts, the last first; gives what stands before the first part.
fn push_parts(todo: &mut Todos, parts: &[LegacyCatch]) -> Result<Closer, AllocError>
    ensures pushed { IfOk result (λ _. todo.new ≡ todo.old ++ handling parts.now) }
    ensures before { IfOk result (λ before. before ≡ closer_before parts.now) }
{
    let mut closer = Closer::End;
    let mut at = parts.len();
    while at > 0 {
        at -= 1;
        closer = push_part(todo, parts[at], closer)?;
    }
    Ok(closer)
}

/// Pushes the sequences that an instruction holds, the last first.
///
/// # Errors
///
/// Want of memory. Some may have been pushed.
#[inline(always)]
pub(crate) fn push_held(todo: &mut Todos, instr: &Instr) -> Result<(), AllocError>
    ensures { OnOk result (todo.new ≡ todo.old ++ entering instr.now) }
{
    match instr {
        Instr::Block { seq } => push_enter(todo, *seq, Closer::End),
        Instr::Loop { seq } => push_enter(todo, *seq, Closer::End),
        Instr::TryTable { seq, .. } => push_enter(todo, *seq, Closer::End),
        Instr::IfElse {
            consequent,
            alternative,
        } => {
            push_enter(todo, *alternative, Closer::End)?;
            push_enter(todo, *consequent, Closer::Else)
        }
        Instr::Try { seq, catches } => {
            let closer = push_parts(todo, catches.as_slice())?;
            push_enter(todo, *seq, closer)
        }
        _ => Ok(()),
    }
}
