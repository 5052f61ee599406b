//! What pairing makes of operators.

use crate::operators::bytes::code;
use crate::operators::maps::{Maps, body};
use crate::operators::names::{is_named, named};
use crate::operators::numbers::place;
use crate::operators::view::is_written;
use std::alloc::Global;
use test_words::{cut, number};
use walrus_index_maps::IdsToIndices;
use walrus_instr::Instr;
use walrus_operators::{Immediates, Operator};
use walrus_pairing::{PairError, instr_of, operator_of};
use wasm_operators::OpCode;

/// What pairing makes, one text: `back` where the instruction has the code of its name, and its operator is of the same form and written as the
/// same bytes, `none` where there is no instruction, or the refusal, of an index by its space.
pub(crate) const MADE: &str =
    "back other none select alignment no-type no-function no-table no-memory no-tag no-global no-element no-data no-local no-label";

// (The spaces stand in the text in the order of their declaration.)
fn refused(fault: PairError) -> u32 {
    match fault {
        PairError::Unknown(space) => (space as u32).saturating_add(5),
        PairError::Select => 3,
        PairError::Alignment => 4,
        _ => 1,
    }
}

// Immediates of the same form, too: a byte 00 and a lane 0 are written alike.
fn is_it(alloc: Global, operator: &Operator, code: OpCode, form: u32, bytes: &[u8]) -> bool {
    operator.code == code
        && (bytes.is_empty()
            || (place(&operator.immediates) == form) & is_written(alloc, operator, bytes))
}

/// Whether the instruction's operator has this code, and where there are bytes, is of this form and written as them.
pub(crate) fn gives(
    alloc: Global,
    numbers: &IdsToIndices,
    instr: &Instr,
    code: OpCode,
    form: u32,
    bytes: &[u8],
) -> bool {
    match operator_of(alloc, instr, body(), numbers) {
        Ok(Some(operator)) => is_it(alloc, &operator, code, form, bytes),
        _ => false,
    }
}

fn has_ids(instr: &Instr, words: &[u8]) -> bool {
    let (one, other) = cut(words, b' ');
    let (_, _, first, second) = named(instr);
    (first as u64 == number(one)) & (second as u64 == number(other))
}

// Whether the instruction has these ids in its fields, or, where none are asked for, the code of its name, and gives the operator back.
fn is_back(
    alloc: Global,
    numbers: &IdsToIndices,
    instr: &Instr,
    operator: &Operator,
    bytes: &[u8],
    ids: &[u8],
) -> bool {
    if !ids.is_empty() {
        return has_ids(instr, ids);
    }
    is_named(alloc, numbers, instr, operator.code)
        && gives(
            alloc,
            numbers,
            instr,
            operator.code,
            place(&operator.immediates),
            bytes,
        )
}

/// What pairing makes of the operator of these bytes, as the place of a word of the text: of its instruction that it has these ids, if any are
/// asked for.
pub(crate) fn made(
    alloc: Global,
    maps: &Maps,
    operator: &Operator,
    bytes: &[u8],
    ids: &[u8],
) -> u32 {
    match instr_of(operator, body(), &maps.ids) {
        Ok(Some(instr)) => {
            if is_back(alloc, &maps.numbers, &instr, operator, bytes, ids) {
                0
            } else {
                1
            }
        }
        Ok(None) => 2,
        Err(fault) => refused(fault),
    }
}

/// Whether the code of a row has no instruction without immediates.
pub(crate) fn has_no_instr(alloc: Global, maps: &Maps, row: &[u8]) -> bool {
    let (prefix, word) = cut(row, b' ');
    let operator = Operator {
        code: code(prefix, word),
        immediates: Immediates::Bare,
    };
    made(alloc, maps, &operator, &[], &[]) > 1
}
