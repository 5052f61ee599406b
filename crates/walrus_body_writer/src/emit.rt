//! Bodies are written.

ghost use Rattle.std.specs.Prelude.{List, IfErr, IfOk, MatchBool, OnOk};
ghost use Rattle.std.specs.Bool.{OnTrue};
ghost use Rattle.walrus_body_text.specs.walrus_tree.walrus_builder.Functions.{seqs_of};
ghost use Rattle.walrus_index_maps.specs.Views.{indices};
ghost use Rattle.walrus_pairing.specs.Looks.{number_of};
ghost use Rattle.walrus_pairing.specs.Seen.{as_seen};
ghost use Rattle.walrus_body_text.specs.walrus_tree.Trees.{IsTree};
ghost use Rattle.walrus_body_text.specs.walrus_tree.Text.{operators};
ghost use Rattle.walrus_body_text.specs.Doing.{label_by, piece_of};
ghost use Rattle.walrus_body_writer.specs.Spelled.{written, written_instr};
ghost use Rattle.walrus_body_text.specs.Walking.{state};
ghost use Rattle.walrus_body_writer.specs.Emitting.{GoesOff, GoesOn, IsDone, Writes};
ghost use Rattle.walrus_body_writer.specs.Numbers.{look_of};
ghost use Rattle.walrus_body_writer.specs.Outputs.{IsEnded, IsPut, StandsFirst, Wrote};
ghost use Rattle.walrus_body_text.specs.Tested.{Skips};
ghost use Rattle.walrus_body_writer.specs.Refusals.{IsLarge, IsRefusal, IsStraightRefusal, LeavesOff, value_in};

use crate::frequent::{append_end, append_frequent, append_holder};
use crate::numbers::{Numbers, Written};
use crate::operators::{closer_of, written_of};
use crate::output::Output;
use crate::refusal::fault_of;
use std::alloc::Global;
use walrus_arena::{FunctionId, InstrSeqId};
use walrus_body_text::body_env::BodyError;
use walrus_body_text::tree::builder::FunctionBuilder;
use walrus_body_text::tree::check_tree;
use walrus_body_text::tree::instr::{Instr, InstrLocId, InstrSeq};
use walrus_body_text::{
    Closer, Depths, Met, Place, Todo, Todos, advance, begin, item_at, plain_at, seq_at,
};
use walrus_index_maps::IdsToIndices;
use walrus_pairing::PairError;

// Puts what is written there.
fn put(out: &mut Output, operator: Written, place: InstrLocId) -> Result<(), PairError>
    ensures { IsPut (as_seen operator) place out.old out.new result }
{
    match operator {
        Ok(Some(operator)) => {
            out.write(&operator, place)?;
            Ok(())
        }
        Ok(None) => Ok(()),
        Err(error) => Err(error),
    }
}

// Ends the operator whose bytes begin there.
#[inline(always)]
fn end_at(out: &mut Output, place: InstrLocId, at: usize) -> Result<(), PairError>
    ensures { IsEnded place at out.old out.new result }
{
    out.end(place, at)?;
    Ok(())
}

// Writes an instruction, where these sequences are open. It isn't inlined: the operator is large, and mostly there is none.
#[inline(never)]
#[tactic(auto, using(crate::proofs::Refused::done))]
fn write_any(
    alloc: Global,
    numbers: &Numbers<'_>,
    seqs: &[InstrSeq],
    depths: &Depths,
    instr: &Instr,
    place: InstrLocId,
    out: &mut Output,
) -> Result<(), PairError>
    ensures { IsDone (IsLarge (look_of numbers.now) (value_in seqs.now instr.now)) (written_instr (look_of numbers.now) seqs.now (label_by depths.now.depths.items depths.now.height) instr.now) place out.old out.new result }
{
    let operator = written_of(alloc, numbers, seqs, depths, instr);
    put(out, operator, place)
}

// The same, for one that holds no sequence: frequent ones straight.
#[inline(always)]
fn write_one(
    alloc: Global,
    numbers: &Numbers<'_>,
    seqs: &[InstrSeq],
    depths: &Depths,
    instr: &Instr,
    place: InstrLocId,
    out: &mut Output,
) -> Result<(), PairError>
    ensures { IsDone (IsLarge (look_of numbers.now) (value_in seqs.now instr.now)) (written_instr (look_of numbers.now) seqs.now (label_by depths.now.depths.items depths.now.height) instr.now) place out.old out.new result }
{
    let at = out.bytes.len();
    match append_frequent(numbers, depths, instr, &mut out.bytes) {
        Ok(true) => end_at(out, place, at),
        Ok(false) => write_any(alloc, numbers, seqs, depths, instr, place, out),
        Err(error) => {
            out.bytes.truncate(at);
            Err(error)
        }
    }
}

// The same, for one that may hold sequences. One that holds none is mostly a frequent one.
#[inline(always)]
fn write_holder(
    alloc: Global,
    numbers: &Numbers<'_>,
    seqs: &[InstrSeq],
    depths: &Depths,
    instr: &Instr,
    place: InstrLocId,
    out: &mut Output,
) -> Result<(), PairError>
    ensures { IsDone (IsLarge (look_of numbers.now) (value_in seqs.now instr.now)) (written_instr (look_of numbers.now) seqs.now (label_by depths.now.depths.items depths.now.height) instr.now) place out.old out.new result }
{
    let at = out.bytes.len();
    match append_holder(numbers, seqs, instr, &mut out.bytes) {
        Ok(true) => end_at(out, place, at),
        Ok(false) => write_one(alloc, numbers, seqs, depths, instr, place, out),
        Err(error) => {
            out.bytes.truncate(at);
            Err(error)
        }
    }
}

// Writes the instruction at a position of an open sequence.
fn write_instr(
    alloc: Global,
    numbers: &Numbers<'_>,
    seqs: &[InstrSeq],
    depths: &Depths,
    id: InstrSeqId,
    at: usize,
    out: &mut Output,
) -> Result<(), PairError>
    ensures written { (ts : List Todo) → Writes (look_of numbers.now) seqs.now (Met.AnInstr id at) (state ts depths.now) out.old out.new result }
    ensures front { StandsFirst out.old out.new }
{
    let Some(seq) = seq_at(seqs, id) else {
        return Ok(());
    };
    let Some((instr, place)) = item_at(seq, at) else {
        return Ok(());
    };
    write_holder(alloc, numbers, seqs, depths, instr, *place, out)
}

// Writes what stands behind a sequence.
#[inline(never)]
fn write_any_end(
    numbers: &Numbers<'_>,
    closer: Closer,
    place: InstrLocId,
    out: &mut Output,
) -> Result<(), PairError>
    ensures { (b : List InstrSeq) → IsDone ⊥ (written (look_of numbers.now) b (piece_of closer)) place out.old out.new result }
{
    let operator = closer_of(numbers, closer);
    put(out, operator, place)
}

// The same, most often straight.
fn write_end(
    numbers: &Numbers<'_>,
    closer: Closer,
    place: InstrLocId,
    out: &mut Output,
) -> Result<(), PairError>
    ensures { (b : List InstrSeq) → IsDone ⊥ (written (look_of numbers.now) b (piece_of closer)) place out.old out.new result }
{
    let at = out.bytes.len();
    let any = closer;
    match append_end(closer, &mut out.bytes) {
        Ok(true) => end_at(out, place, at),
        Ok(false) => write_any_end(numbers, any, place, out),
        Err(error) => {
            out.bytes.truncate(at);
            Err(error)
        }
    }
}

// Writes what stands where the list has come to.
fn write_met(
    alloc: Global,
    numbers: &Numbers<'_>,
    seqs: &[InstrSeq],
    depths: &Depths,
    met: Met,
    out: &mut Output,
) -> Result<(), PairError>
    ensures written { (ts : List Todo) → Writes (look_of numbers.now) seqs.now met (state ts depths.now) out.old out.new result }
    ensures front { StandsFirst out.old out.new }
{
    match met {
        Met::AnInstr(seq, at) => write_instr(alloc, numbers, seqs, depths, seq, at, out),
        Met::AnEnd(closer, place) => write_end(numbers, closer, place, out),
    }
}

// Writes the instructions at a place of an open sequence, as far as none of them holds a sequence; gives the place behind them.
fn write_plain(
    alloc: Global,
    numbers: &Numbers<'_>,
    seqs: &[InstrSeq],
    depths: &Depths,
    place: Place,
    out: &mut Output,
) -> Result<Place, PairError>
    ensures on { IfOk result (λ next. GoesOn (look_of numbers.now) seqs.now depths.now (Todo.Inside place) (Todo.Inside next) out.old out.new) }
    ensures tested { IfOk result (λ next. Skips seqs.now depths.now (Todo.Inside place) (Todo.Inside next)) }
    ensures off { IfErr result (λ e. GoesOff (look_of numbers.now) seqs.now depths.now (Todo.Inside place) e out.old out.new) }
    ensures front { StandsFirst out.old out.new }
{
    let Some(seq) = seq_at(seqs, place.seq) else {
        return Ok(place);
    };
    let mut next = place.next;
    while let Some((instr, at)) = plain_at(seq, depths, next) {
        match write_one(alloc, numbers, seqs, depths, instr, *at, out) {
            Ok(()) => {}
            Err(error) => return Err(error),
        }
        next += 1;
    }
    Ok(Place {
        seq: place.seq,
        next,
        closer: place.closer,
    })
}

// Writes the sequences of a tree; false where they form none.
fn write_tree(
    alloc: Global,
    numbers: &Numbers<'_>,
    seqs: &[InstrSeq],
    entry: InstrSeqId,
    out: &mut Output,
) -> Result<bool, PairError>
    ensures tree { IfOk result (λ fine. MatchBool fine (IsTree seqs.now entry) (IsTree seqs.now entry → ⊥)) }
    ensures written { IfOk result (λ fine. OnTrue fine (Wrote (look_of numbers.now) seqs.now (operators seqs.now entry) out.old out.new)) }
    ensures left { IfErr result (λ e. IsTree seqs.now entry → LeavesOff (look_of numbers.now) seqs.now (operators seqs.now entry) out.old e out.new) }
    ensures front { StandsFirst out.old out.new }
{
    walrus_body_text::tree::laws::trees_are_nested();
    walrus_body_text::tree::laws::text_is_plain();
    walrus_body_text::tree::laws::trees_are_sound();
    let mut depths = Depths::new(alloc, seqs.len())?;
    let mut todo = Todos::new(alloc, Todo::Enter(entry, Closer::End));
    while let Some(top) = todo.pop() {
        let Some(place) = begin(&mut depths, top)? else {
            return Ok(false);
        };
        let next = match write_plain(alloc, numbers, seqs, &depths, place, out) {
            Ok(next) => next,
            Err(error) => return Err(error),
        };
        let Some(met) = advance(seqs, Todo::Inside(next), &mut todo, &mut depths)? else {
            return Ok(false);
        };
        match write_met(alloc, numbers, seqs, &depths, met, out) {
            Ok(()) => {}
            Err(error) => return Err(error),
        }
    }
    Ok(true)
}

/// Puts the instructions of a function's body behind what was written, through its last `end`: each as an operator in its shortest
/// spelling, what it names by its numbers, the labels by how many sequences lie between, the blocks by the types of their sequences.
/// Where places are kept, each written operator has one. Takes time in proportion to the sequences, to the instructions that are
/// written and to their labels.
///
/// # Errors
///
/// `NoTree` exactly where the sequences that the body's own reaches form no tree in which each label names a sequence around it; then
/// the output is as it was. Else a first part of the operators is written behind what was there, and the next one is refused: `Index`
/// where what it names has no number, `Limit` of types where its value type names one by a number of more than 20 bits; or memory was
/// wanted.
pub fn emit_instructions(
    alloc: Global,
    body: &FunctionBuilder,
    function: FunctionId,
    maps: &IdsToIndices,
    out: &mut Output,
) -> Result<(), BodyError>
    ensures tree { OnOk result (IsTree (seqs_of body.now) 0) }
    ensures written { OnOk result (Wrote (number_of (indices maps.now) function) (seqs_of body.now) (operators (seqs_of body.now) 0) out.old out.new) }
    ensures refused { IfErr result (λ fault. IsRefusal (number_of (indices maps.now) function) (seqs_of body.now) out.old fault out.new) }
{
    let entry = body.func_body_id();
    let numbers = Numbers { maps, function };
    let mut own = match out.aside(alloc) {
        Ok(own) => own,
        Err(_) => return Err(BodyError::Memory),
    };
    match write_tree(alloc, &numbers, body.seqs(), entry, &mut own) {
        Ok(true) => match out.take(own) {
            Ok(()) => Ok(()),
            Err(_) => Err(BodyError::Memory),
        },
        Ok(false) => Err(BodyError::NoTree),
        Err(error) => match check_tree(alloc, body, entry) {
            Ok(true) => match out.take(own) {
                Ok(()) => Err(fault_of(error)),
                Err(_) => Err(BodyError::Memory),
            },
            Ok(false) => Err(BodyError::NoTree),
            Err(_) => Err(BodyError::Memory),
        },
    }
}

/// The same, straight behind what was written: a refused call leaves what was there at the front, and behind it a first part of what it
/// writes.
///
/// # Errors
///
/// As those of [`emit_instructions`]; but where it is `NoTree`, or memory was wanted, anything may stand behind what was there.
pub fn write_instructions(
    alloc: Global,
    body: &FunctionBuilder,
    function: FunctionId,
    maps: &IdsToIndices,
    out: &mut Output,
) -> Result<(), BodyError>
    ensures tree { OnOk result (IsTree (seqs_of body.now) 0) }
    ensures written { OnOk result (Wrote (number_of (indices maps.now) function) (seqs_of body.now) (operators (seqs_of body.now) 0) out.old out.new) }
    ensures refused { IfErr result (λ fault. IsStraightRefusal (number_of (indices maps.now) function) (seqs_of body.now) out.old fault out.new) }
    ensures front { StandsFirst out.old out.new }
{
    let entry = body.func_body_id();
    let numbers = Numbers { maps, function };
    match write_tree(alloc, &numbers, body.seqs(), entry, out) {
        Ok(true) => Ok(()),
        Ok(false) => Err(BodyError::NoTree),
        Err(error) => match check_tree(alloc, body, entry) {
            Ok(true) => Err(fault_of(error)),
            Ok(false) => Err(BodyError::NoTree),
            Err(_) => Err(BodyError::Memory),
        },
    }
}
