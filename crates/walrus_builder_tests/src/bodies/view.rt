//! What an instruction is, with the number of its form (`FORMS` of `forms`), so that it can be compared with a word of a row.
use crate::bodies::forms::{Row, block_type, is_list, number, row_of};
use test_words::{cut, next};
use walrus_arena::Id;
use walrus_instr::{Instr, InstrLocId, InstrSeq, Value};

fn one<S>(form: u32, first: Id<S>) -> Option<Row> {
    Some((form, first.index() as u64, 0, 0))
}

fn constant_row(value: &Value) -> Option<Row> {
    match value {
        Value::I32(number) => Some((300, i64::from(*number).cast_unsigned(), 0, 0)),
        Value::I64(number) => Some((301, number.cast_unsigned(), 0, 0)),
        Value::F32(bits) => Some((302, u64::from(*bits), 0, 0)),
        Value::F64(bits) => Some((303, *bits, 0, 0)),
        Value::V128(_) => None,
    }
}

// None of a form that stands in no body of the rows.
fn row(instr: &Instr) -> Option<Row> {
    match instr {
        Instr::Unreachable => Some((0, 0, 0, 0)),
        Instr::Br { block } => one(1, *block),
        Instr::Return => Some((5, 0, 0, 0)),
        Instr::Call { func } => one(100, *func),
        Instr::ReturnCall { func } => one(103, *func),
        Instr::Drop => Some((200, 0, 0, 0)),
        Instr::Const { value } => constant_row(value),
        Instr::LocalGet { local } => one(400, *local),
        Instr::LocalTee { local } => one(402, *local),
        Instr::MemorySize { memory } => one(603, *memory),
        Instr::RefEq => Some((803, 0, 0, 0)),
        Instr::ArrayLen => Some((1011, 0, 0, 0)),
        Instr::Block { seq } => one(1100, *seq),
        Instr::Loop { seq } => one(1101, *seq),
        Instr::IfElse {
            consequent,
            alternative,
        } => Some((
            1102,
            consequent.index() as u64,
            alternative.index() as u64,
            0,
        )),
        _ => None,
    }
}

// Whether the instruction is the one of the word.
fn is_instr(instr: &Instr, word: &[u8]) -> bool {
    let wanted = row_of(word);
    let (_, fields) = cut(word, b',');
    let (first, items) = cut(fields, b',');
    match instr {
        Instr::Try { seq, catches } => {
            (wanted.0, number(first)) == (1103, seq.index() as u64)
                && is_list(catches.as_slice(), items)
        }
        _ => row(instr) == Some(wanted),
    }
}

fn is_place(place: &InstrLocId, text: &[u8]) -> bool {
    if text.is_empty() {
        place.is_default()
    } else {
        u64::from(place.data()) == number(text)
    }
}

// Whether these are just the instructions of the words, each with the location behind its `@`, if it has one.
fn are_instrs(instrs: &[(Instr, InstrLocId)], words: &[u8]) -> bool {
    let mut rest = words;
    let mut agree = true;
    for (instr, place) in instrs {
        let (one, more) = next(rest);
        let (word, at) = cut(one, b'@');
        agree &= is_place(place, at) && is_instr(instr, word);
        rest = more;
    }
    agree && rest.is_empty()
}

// The type, and the location of the `end` behind an `@`, if it has one.
fn is_header(seq: &InstrSeq, word: &[u8]) -> bool {
    let (ty, at) = cut(word, b'@');
    seq.ty.get() == block_type(ty) && is_place(&seq.end, at)
}

fn has_seq(seqs: &[InstrSeq], text: &[u8]) -> bool {
    let (index, rest) = next(text);
    let (header, instrs) = next(rest);
    let index = number(index) as usize;
    match seqs.get(index) {
        Some(seq) => {
            seq.id().index() == index
                && is_header(seq, header)
                && are_instrs(seq.instrs.as_slice(), instrs)
        }
        None => false,
    }
}

/// Whether there are so many sequences, and those are as the text says, each behind a `;`: its number, its type, and its instructions.
pub fn are_seqs(seqs: &[InstrSeq], text: &[u8]) -> bool {
    let (count, rest) = cut(text, b';');
    let (count, _) = next(count);
    let mut agree = count == "any".as_bytes() || number(count) == seqs.len() as u64;
    let mut rest = rest;
    for _ in 0..text.len() {
        if rest.is_empty() {
            return agree;
        }
        let (one, more) = cut(rest, b';');
        agree &= has_seq(seqs, one);
        rest = more;
    }
    false
}
