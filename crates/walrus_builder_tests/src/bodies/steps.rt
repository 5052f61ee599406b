//! Steps that fill a body, as words.
use crate::bodies::calls::add;
use crate::bodies::forms::{PLAIN, block_type, id, number};
use std::alloc::{AllocError, Global};
use std::mem;
use test_words::{cut, lower, next, place};
use walrus_arena::InstrSeqId;
use walrus_builder::{FunctionBuilder, InstrSeqBuilder};
use walrus_instr::{Instr, InstrLocId, InstrSeq, InstrSeqType, SeqType};

/// The location of this number.
pub fn location(text: &[u8]) -> InstrLocId {
    InstrLocId::new((number(text) % 1000) as u32)
}

// The instruction of a word: what its call adds, taken off again.
fn taken(alloc: Global, seq: &mut InstrSeqBuilder, word: &[u8]) -> Result<Instr, AllocError> {
    add(alloc, seq, word)?;
    match seq.instrs_mut().pop() {
        Some((instr, _)) => Ok(instr),
        None => Err(AllocError),
    }
}

// Adds the instruction of a word, with the location behind its `@`, if it has one.
fn put(alloc: Global, seq: &mut InstrSeqBuilder, word: &[u8]) -> Result<(), AllocError> {
    let (what, at) = cut(word, b'@');
    if at.is_empty() {
        return add(alloc, seq, what);
    }
    let instr = taken(alloc, seq, what)?;
    seq.instr_with_location(instr, location(at))
}

// Pushes an instruction to the list, by a location and a word.
fn push(alloc: Global, seq: &mut InstrSeqBuilder, text: &[u8]) -> Result<(), AllocError> {
    let (place, word) = cut(text, b',');
    let instr = taken(alloc, seq, word)?;
    seq.instrs_mut().push((instr, location(place)))?;
    Ok(())
}

fn put_at(seq: &mut InstrSeqBuilder, position: usize, instr: Instr) -> Result<(), AllocError> {
    if position > seq.instrs().len() {
        return Err(AllocError);
    }
    seq.instr_at(position, instr)
}

// Inserts an instruction, by a position and a word.
fn insert(alloc: Global, seq: &mut InstrSeqBuilder, text: &[u8]) -> Result<(), AllocError> {
    let (position, word) = cut(text, b',');
    let instr = taken(alloc, seq, word)?;
    put_at(seq, number(position) as usize, instr)
}

// What fills a block: a constant, or nothing where it is below zero, as that is refused.
fn fill(seq: &mut InstrSeqBuilder, number: i32) -> Result<(), AllocError> {
    if number < 0 {
        return Err(AllocError);
    }
    seq.i32_const(number)
}

fn value(text: &[u8]) -> i32 {
    lower(number(text)).cast_signed()
}

// Adds a block, a loop or an `if` by its type and constants.
fn nest(seq: &mut InstrSeqBuilder, form: u32, text: &[u8]) -> Result<(), AllocError> {
    let (ty, rest) = cut(text, b',');
    let (first, second) = cut(rest, b',');
    let (ty, first, second) = (block_type(ty), value(first), value(second));
    let make = |inner: &mut InstrSeqBuilder| fill(inner, first);
    match form {
        0 => seq.block(ty, make),
        1 => seq.loop_(ty, make),
        _ => seq.if_else(ty, make, |other| fill(other, second)),
    }
}

// The same at a position.
fn nest_at(seq: &mut InstrSeqBuilder, form: u32, text: &[u8]) -> Result<(), AllocError> {
    let (position, rest) = cut(text, b',');
    let (ty, rest) = cut(rest, b',');
    let (first, second) = cut(rest, b',');
    let position = number(position) as usize;
    let (ty, first, second) = (block_type(ty), value(first), value(second));
    if position > seq.instrs().len() {
        return Err(AllocError);
    }
    let make = |inner: &mut InstrSeqBuilder| fill(inner, first);
    match form {
        3 => seq.block_at(position, ty, make),
        4 => seq.loop_at(position, ty, make),
        _ => seq.if_else_at(position, ty, make, |other| fill(other, second)),
    }
}

// A block that is refused.
fn refuse(seq: &mut InstrSeqBuilder) -> Result<(), AllocError> {
    match nest(seq, 0, "-,-1".as_bytes()) {
        Ok(()) => Err(AllocError),
        Err(_) => Ok(()),
    }
}

// A step on the sequence at hand: an instruction at a position or in the list, a block that is refused, or an instruction at the end.
fn step_in(alloc: Global, seq: &mut InstrSeqBuilder, word: &[u8]) -> Result<(), AllocError> {
    let (name, rest) = cut(word, b'=');
    match place("at list refused".as_bytes(), name) {
        0 => insert(alloc, seq, rest),
        1 => push(alloc, seq, rest),
        2 => refuse(seq),
        _ => put(alloc, seq, word),
    }
}

// The same, or a block with what fills it.
fn step_or_nest(alloc: Global, seq: &mut InstrSeqBuilder, word: &[u8]) -> Result<(), AllocError> {
    let (name, rest) = cut(word, b'=');
    let form = place("block loop if block_at loop_at if_at".as_bytes(), name);
    if form < 3 {
        nest(seq, form, rest)
    } else if form < 6 {
        nest_at(seq, form, rest)
    } else {
        step_in(alloc, seq, word)
    }
}

// The same, where the sequence of that number is at hand before and after.
fn step_on(
    alloc: Global,
    seq: &mut InstrSeqBuilder,
    at: InstrSeqId,
    word: &[u8],
) -> Result<(), AllocError> {
    let begins = seq.id() == at;
    step_or_nest(alloc, seq, word)?;
    if begins && seq.id() == at {
        Ok(())
    } else {
        Err(AllocError)
    }
}

// On the sequence of that number, if it is there: the body's own is asked for as that.
fn step_at(
    alloc: Global,
    body: &mut FunctionBuilder,
    at: InstrSeqId,
    word: &[u8],
) -> Result<(), AllocError> {
    if at.index() == 0 {
        return step_on(alloc, body.func_body(), at, word);
    }
    if at.index() >= body.seqs().len() {
        return Err(AllocError);
    }
    step_on(alloc, body.instr_seq(at), at, word)
}

// Writes a sequence that is lent: its type, or the location of its `end`.
fn write(seq: &mut InstrSeq, is_type: bool, text: &[u8]) {
    if is_type {
        seq.ty = SeqType::new(block_type(text));
    } else {
        seq.end = location(text);
    }
}

// Gives a sequence the instructions of the body's own.
fn fill_at(
    alloc: Global,
    body: &mut FunctionBuilder,
    at: InstrSeqId,
    text: &[u8],
) -> Result<(), AllocError> {
    let mut instrs = Vec::new(alloc);
    mem::swap(body.func_body().instrs_mut(), &mut instrs);
    if at.index() >= body.seqs().len() {
        return Err(AllocError);
    }
    body.fill(at, instrs, location(text));
    Ok(())
}

fn write_at(
    body: &mut FunctionBuilder,
    at: InstrSeqId,
    is_type: bool,
    text: &[u8],
) -> Result<(), AllocError> {
    if at.index() >= body.seqs().len() {
        return Err(AllocError);
    }
    write(body.seq_mut(at), is_type, text);
    Ok(())
}

// Pushes an instruction to a sequence that is lent, by a location and a word.
fn push_at(
    alloc: Global,
    body: &mut FunctionBuilder,
    at: InstrSeqId,
    text: &[u8],
) -> Result<(), AllocError> {
    let (place, word) = cut(text, b',');
    let instr = taken(alloc, body.func_body(), word)?;
    if at.index() >= body.seqs().len() {
        return Err(AllocError);
    }
    body.seq_mut(at).push((instr, location(place)))?;
    Ok(())
}

// Adds a sequence, whose number is the next.
fn add_seq(body: &mut FunctionBuilder, ty: InstrSeqType) -> Result<(), AllocError> {
    let id = body.dangling_instr_seq(ty)?;
    if id.index().wrapping_add(1) != body.seqs().len() {
        return Err(AllocError);
    }
    Ok(())
}

fn add_seqs(body: &mut FunctionBuilder, count: u64) -> Result<(), AllocError> {
    for _ in 0..count {
        add_seq(body, PLAIN)?;
    }
    Ok(())
}

// Adds 100,000 blocks, each in the one before, and gives the last.
fn add_nest(body: &mut FunctionBuilder) -> Result<InstrSeqId, AllocError> {
    let mut outer = body.func_body_id();
    for _ in 0..100_000 {
        let seq = body.dangling_instr_seq(PLAIN)?;
        if outer.index() >= body.seqs().len() {
            return Err(AllocError);
        }
        body.instr_seq(outer).instr(Instr::Block { seq })?;
        outer = seq;
    }
    Ok(outer)
}

// A step, and the sequence that is at hand then.
fn step(
    alloc: Global,
    body: &mut FunctionBuilder,
    at: InstrSeqId,
    word: &[u8],
) -> Result<InstrSeqId, AllocError> {
    let (name, text) = cut(word, b'=');
    let step = place("type end fill push seqs seq in nest".as_bytes(), name);
    match step {
        0 => write_at(body, at, true, text)?,
        1 => write_at(body, at, false, text)?,
        2 => fill_at(alloc, body, at, text)?,
        3 => push_at(alloc, body, at, text)?,
        4 => add_seqs(body, number(text))?,
        5 => add_seq(body, block_type(text))?,
        6 => return Ok(id(number(text))),
        7 => return add_nest(body),
        _ => step_at(alloc, body, at, word)?,
    }
    Ok(at)
}

/// Does the steps of the words, the first of them in the body's own sequence.
pub fn take(alloc: Global, body: &mut FunctionBuilder, words: &[u8]) -> Result<(), AllocError> {
    let mut at = body.func_body_id();
    let mut rest = words;
    for _ in 0..words.len() {
        if rest.is_empty() {
            return Ok(());
        }
        let (word, more) = next(rest);
        at = step(alloc, body, at, word)?;
        rest = more;
    }
    Ok(())
}
