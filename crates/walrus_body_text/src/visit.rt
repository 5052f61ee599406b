//! The text of a body is told, piece by piece.

ghost use Rattle.std.specs.Prelude.{◌≡◌, ℕ, List, IfErr, IfOk, MatchBool, OnErr, OnOk};
ghost use Rattle.std.specs.Bool.{OnTrue};
ghost use Rattle.std.specs.List.{FoldsTo};
ghost use Rattle.walrus_tree.specs.walrus_walks.walrus_instr.declared.seq.InstrLocId.{InstrLocId as Loc};
ghost use Rattle.walrus_tree.specs.walrus_builder.Functions.{seqs_of};
ghost use Rattle.walrus_tree.specs.Trees.{IsTree};
ghost use Rattle.walrus_tree.specs.Text.{Operator, Piece, operators};
ghost use Rattle.walrus_body_text.specs.Doing.{piece_of};
ghost use Rattle.walrus_body_text.specs.Walking.{IsCause};
ghost use Rattle.walrus_body_text.specs.Tested.{Skips};
ghost use Rattle.walrus_body_text.specs.Visiting.{IsLeft, TellsOff, TellsOn, ToldPart, Visits};

use crate::depths::Depths;
use crate::todo::{Closer, Met, Place, Todo};
use crate::todos::Todos;
use crate::walk::{advance, begin, item_at, plain_at, seq_at};
use std::alloc::{AllocError, Global};
use walrus_arena::InstrSeqId;
use walrus_body_env::BodyError;
use walrus_tree::builder::FunctionBuilder;
use walrus_tree::check_tree;
use walrus_tree::instr::{Instr, InstrLocId, InstrSeq};

/// Is told the text of a body: its operators in their order, each with its location.
pub trait TextVisitor {
    /// How a piece of the text may change the visitor.
    ghost step: { Self → Piece × Loc → Self → Type 0 };

    /// What stays where memory was wanted.
    ghost same: { Self → Self → Type 0 };

    /// An instruction, or the beginning of a block.
    ///
    /// # Errors
    ///
    /// Want of memory. What the visitor holds is as it was.
    fn instr(&mut self, instr: &Instr, place: InstrLocId) -> Result<(), AllocError>
        ensures told { OnOk result ((around : List ℕ) → step self.old (Operator around instr.now, place) self.new) }
        ensures refused { OnErr result (same self.old self.new) };

    /// What stands behind a sequence.
    ///
    /// # Errors
    ///
    /// Want of memory. What the visitor holds is as it was.
    fn end(&mut self, closer: Closer, place: InstrLocId) -> Result<(), AllocError>
        ensures told { OnOk result (step self.old (piece_of closer, place) self.new) }
        ensures refused { OnErr result (same self.old self.new) };
}

// Tells of the instruction at a position of a sequence.
fn tell_instr<V: TextVisitor>(
    visitor: &mut V,
    seqs: &[InstrSeq],
    id: InstrSeqId,
    at: usize,
) -> Result<(), AllocError>
    ensures told { OnOk result (Visits V.step seqs.now (Met.AnInstr id at) visitor.old visitor.new) }
    ensures refused { OnErr result (V.same visitor.old visitor.new) }
{
    let Some(seq) = seq_at(seqs, id) else {
        return Ok(());
    };
    let Some((instr, place)) = item_at(seq, at) else {
        return Ok(());
    };
    visitor.instr(instr, *place)
}

// Tells of what stands where the list has come to.
fn tell_met<V: TextVisitor>(visitor: &mut V, seqs: &[InstrSeq], met: Met) -> Result<(), AllocError>
    ensures told { OnOk result (Visits V.step seqs.now met visitor.old visitor.new) }
    ensures refused { OnErr result (V.same visitor.old visitor.new) }
{
    match met {
        Met::AnInstr(seq, at) => tell_instr(visitor, seqs, seq, at),
        Met::AnEnd(closer, place) => visitor.end(closer, place),
    }
}

// Tells of the instructions at a place of an open sequence, as far as none of them holds a sequence; gives the place behind them.
fn tell_plain<V: TextVisitor>(
    visitor: &mut V,
    seqs: &[InstrSeq],
    depths: &Depths,
    place: Place,
) -> Result<Place, AllocError>
    ensures told { IfOk result (λ next. TellsOn V.step seqs.now (Todo.Inside place) (Todo.Inside next) visitor.old visitor.new) }
    ensures tested { IfOk result (λ next. Skips seqs.now depths.now (Todo.Inside place) (Todo.Inside next)) }
    ensures refused { OnErr result (TellsOff V.step V.same seqs.now (Todo.Inside place) visitor.old visitor.new) }
{
    let Some(seq) = seq_at(seqs, place.seq) else {
        return Ok(place);
    };
    let mut next = place.next;
    while let Some((instr, at)) = plain_at(seq, depths, next) {
        visitor.instr(instr, *at)?;
        next += 1;
    }
    Ok(Place {
        seq: place.seq,
        next,
        closer: place.closer,
    })
}

// Tells the text of a tree; false where the sequences form none.
fn visit_tree<V: TextVisitor>(
    alloc: Global,
    visitor: &mut V,
    seqs: &[InstrSeq],
    entry: InstrSeqId,
) -> Result<bool, AllocError>
    ensures tree { IfOk result (λ fine. MatchBool fine (IsTree seqs.now entry) (IsTree seqs.now entry → ⊥)) }
    ensures told { IfOk result (λ fine. OnTrue fine (FoldsTo V.step visitor.old (operators seqs.now entry) visitor.new)) }
    ensures left { OnErr result (IsTree seqs.now entry → ToldPart V.step V.same (operators seqs.now entry) visitor.old visitor.new) }
{
    walrus_tree::laws::trees_are_nested();
    walrus_tree::laws::text_is_plain();
    walrus_tree::laws::trees_are_sound();
    let mut depths = Depths::new(alloc, seqs.len())?;
    let mut todo = Todos::new(alloc, Todo::Enter(entry, Closer::End));
    while let Some(top) = todo.pop() {
        let Some(place) = begin(&mut depths, top)? else {
            return Ok(false);
        };
        let next = tell_plain(visitor, seqs, &depths, place)?;
        let Some(met) = advance(seqs, Todo::Inside(next), &mut todo, &mut depths)? else {
            return Ok(false);
        };
        tell_met(visitor, seqs, met)?;
    }
    Ok(true)
}

/// Tells the visitor the text of a body, through its last `end`.
///
/// # Errors
///
/// `NoTree` exactly where the sequences that the body's own reaches form no tree in which each label names a sequence around it; then
/// nothing was told, and the visitor is as it was. Else want of memory alone; then a first part was told, and no more.
pub fn visit_text<V: TextVisitor>(
    alloc: Global,
    visitor: &mut V,
    body: &FunctionBuilder,
) -> Result<(), BodyError>
    ensures tree { OnOk result (IsTree (seqs_of body.now) 0) }
    ensures told { OnOk result (FoldsTo V.step visitor.old (operators (seqs_of body.now) 0) visitor.new) }
    ensures refused { IfErr result (IsCause (seqs_of body.now)) }
    ensures left { IfErr result (IsLeft V.step V.same (operators (seqs_of body.now) 0) visitor.old visitor.new) }
{
    let entry = body.func_body_id();
    if !check_tree(alloc, body, entry)? {
        return Err(BodyError::NoTree);
    }
    if !visit_tree(alloc, visitor, body.seqs(), entry)? {
        return Err(BodyError::NoTree);
    }
    Ok(())
}

/// Tells the visitor the text of a body, through its last `end`, and looks at each instruction once.
///
/// # Errors
///
/// `NoTree` exactly where the sequences that the body's own reaches form no tree in which each label names a sequence around it; else
/// want of memory alone. Something may have been told then.
pub fn visit_once<V: TextVisitor>(
    alloc: Global,
    visitor: &mut V,
    body: &FunctionBuilder,
) -> Result<(), BodyError>
    ensures tree { OnOk result (IsTree (seqs_of body.now) 0) }
    ensures told { OnOk result (FoldsTo V.step visitor.old (operators (seqs_of body.now) 0) visitor.new) }
    ensures refused { IfErr result (IsCause (seqs_of body.now)) }
{
    let entry = body.func_body_id();
    if !visit_tree(alloc, visitor, body.seqs(), entry)? {
        return Err(BodyError::NoTree);
    }
    Ok(())
}
