//! The text of a tree, piece by piece, and the test that it is one.

ghost use Rattle.std.specs.Prelude.{◌≡◌, ◌+◌, ◌<◌, ◌++◌, [], ◌∷◌, IfOk, IfSome, OnOk, OnSome, false, true, is_some, option_copied, slice_get};
ghost use Rattle.walrus_tree.specs.Testing.{within};
ghost use Rattle.walrus_body_text.specs.Doing.{depths_after, entering, height_after, holds, marks_after, place_of};
ghost use Rattle.walrus_body_text.specs.Walking.{Advances, state};
ghost use Rattle.walrus_body_text.specs.Tested.{is_plain, may_begin, passes};

use crate::depths::Depths;
use crate::todo::{Closer, Met, Place, Todo, push_held};
use crate::todos::Todos;
use std::alloc::AllocError;
use walrus_arena::InstrSeqId;
use walrus_tree::instr::{Instr, InstrLocId, InstrSeq};

/// Enters the sequence that is next, if it isn't open; none where it is unknown, or was entered before.
///
/// # Errors
///
/// Want of memory.
#[inline(always)]
pub fn begin(depths: &mut Depths, top: Todo) -> Result<Option<Place>, AllocError>
    ensures tested { IfOk result (λ at. is_some at ≡ may_begin depths.old.marks.items top) }
    ensures place { IfOk result (λ at. IfSome at (λ place. place ≡ place_of top)) }
    ensures marks { IfOk result (λ at. OnSome at (depths.new.marks.items ≡ marks_after depths.old.marks.items top)) }
    ensures depths { IfOk result (λ at. OnSome at (depths.new.depths.items ≡ depths_after depths.old.depths.items depths.old.height top)) }
    ensures height { IfOk result (λ at. OnSome at (depths.new.height ≡ height_after depths.old.height top)) }
{
    match top {
        Todo::Enter(seq, closer) => {
            if !depths.enter(seq)? {
                return Ok(None);
            }
            Ok(Some(Place {
                seq,
                next: 0,
                closer,
            }))
        }
        Todo::Inside(at) => Ok(Some(at)),
    }
}

/// The sequence of this id.
pub fn seq_at(seqs: &[InstrSeq], id: InstrSeqId) -> Option<&InstrSeq>
    ensures { option_copied result ≡ slice_get seqs.now id }
{
    seqs.get(id.index())
}

/// The instruction at a position of a sequence, with its location.
pub fn item_at(seq: &InstrSeq, at: usize) -> Option<&(Instr, InstrLocId)>
    ensures item { option_copied result ≡ slice_get seq.now.instrs.items at }
    ensures room { OnSome result (at < 18446744073709551615) }
{
    if at >= seq.instrs.len() {
        return None;
    }
    Some(&seq.instrs[at])
}

fn holds(instr: &Instr) -> bool
    ensures { result ≡ holds instr.now }
{
    matches!(
        instr,
        Instr::Block { .. }
            | Instr::Loop { .. }
            | Instr::IfElse { .. }
            | Instr::Try { .. }
            | Instr::TryTable { .. }
    )
}

/// The instruction at a position of a sequence, with its location, if it holds no sequence itself, and its labels name open ones.
#[inline(always)]
pub fn plain_at<'a>(
    seq: &'a InstrSeq,
    depths: &Depths,
    at: usize,
) -> Option<&'a (Instr, InstrLocId)>
    ensures item { IfSome (option_copied result) (λ x. (slice_get seq.now.instrs.items at ≡ Some x) × (holds x.0 ≡ false) × (within depths.now.marks.items depths.now.height x.0 ≡ true)) }
    ensures there { is_some result ≡ is_plain depths.now.marks.items depths.now.height (slice_get seq.now.instrs.items at) }
    ensures room { OnSome result (at < 18446744073709551615) }
{
    let Some(item) = item_at(seq, at) else {
        return None;
    };
    if holds(&item.0) {
        return None;
    }
    if !depths.is_within(&item.0) {
        return None;
    }
    Some(item)
}

// Leaves what an instruction holds, and what is behind it, to do.
#[inline(always)]
fn push_rest(
    todo: &mut Todos,
    seq: InstrSeqId,
    at: usize,
    closer: Closer,
    instr: &Instr,
) -> Result<(), AllocError>
    requires { at < 18446744073709551615 }
    ensures { OnOk result (todo.new ≡ (todo.old ++ Todo.Inside (record { seq = seq; next = at + 1; closer = closer }) ∷ []) ++ entering instr.now) }
{
    let next = at + 1;
    todo.push(Todo::Inside(Place { seq, next, closer }))?;
    push_held(todo, instr)
}

/// Goes on: what was taken from the list is entered, if it isn't open, and what is inside it and behind it is left. Gives what
/// stands there; none where the sequence is unknown or was entered before, or where a label names none that is open.
///
/// # Errors
///
/// Want of memory.
#[inline(always)]
pub fn advance(
    seqs: &[InstrSeq],
    top: Todo,
    todo: &mut Todos,
    depths: &mut Depths,
) -> Result<Option<Met>, AllocError>
    ensures tested { IfOk result (λ met. is_some met ≡ passes seqs.now top (state todo.old depths.old)) }
    ensures advanced { IfOk result (λ met. IfSome met (λ it. Advances seqs.now top it (state todo.old depths.old) (state todo.new depths.new))) }
{
    let Some(
        Place {
            seq: id,
            next,
            closer,
        },
    ) = begin(depths, top)?
    else {
        return Ok(None);
    };
    let Some(seq) = seq_at(seqs, id) else {
        return Ok(None);
    };
    let Some((instr, _)) = item_at(seq, next) else {
        depths.leave(id);
        return Ok(Some(Met::AnEnd(closer, seq.end)));
    };
    if !depths.is_within(instr) {
        return Ok(None);
    }
    push_rest(todo, id, next, closer, instr)?;
    Ok(Some(Met::AnInstr(id, next)))
}
