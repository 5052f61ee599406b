//! The operators: each is read, is missing its end at each of its bytes, is written, copied, and paired both ways.

use crate::operators::bytes::{code, text_of};
use crate::operators::maps::Maps;
use crate::operators::rows::IMMEDIATES;
use crate::operators::view::{Asked, END, answer};
use std::alloc::Global;
use test_words::{bytes_of, cut};
use wasm_operators::OpCode;
use wasm_reader::WasmFeatures;

// Each proper front of the bytes is refused for its end.
fn ends_early(alloc: Global, maps: &Maps, bytes: &[u8]) -> bool {
    for size in 0..bytes.len() {
        if answer(alloc, maps, WasmFeatures::all(), &bytes[..size], None).0 != END {
            return false;
        }
    }
    true
}

// Whether the code stands with the immediates of this row: what follows it, and what pairing makes of it, if it isn't `back`.
fn has_immediates(
    alloc: Global,
    maps: &Maps,
    code: OpCode,
    form: &[u8],
    becomes: &[u8],
    row: &[u8],
) -> bool {
    let (immediates, word) = cut(row, b' ');
    let bytes = text_of(code, immediates);
    let word = if word == "back".as_bytes() {
        becomes
    } else {
        word
    };
    let bytes = bytes.as_slice();
    let asked = (b'c', code, form, word);
    ends_early(alloc, maps, bytes)
        && answer(alloc, maps, WasmFeatures::all(), bytes, Some(&asked)).0 == 0
}

// With how many immediates the code stands: with each of its form. None where it doesn't, or there are none.
fn stands_with(
    alloc: Global,
    maps: &Maps,
    code: OpCode,
    form: &[u8],
    becomes: &[u8],
) -> Option<u32> {
    let mut rest = IMMEDIATES.as_bytes();
    let mut count = 0u32;
    for _ in 0..IMMEDIATES.len() {
        let (row, next) = cut(rest, b'\n');
        let (of, words) = cut(row, b' ');
        if of == form {
            if !has_immediates(alloc, maps, code, form, becomes, words) {
                return None;
            }
            count = count.saturating_add(1);
        }
        if next.is_empty() {
            return if count == 0 { None } else { Some(count) };
        }
        rest = next;
    }
    None
}

// The code alone is no operator's.
fn is_unknown(alloc: Global, maps: &Maps, code: OpCode) -> Option<u32> {
    let bytes = text_of(code, &[]);
    let (found, _, place) = answer(alloc, maps, WasmFeatures::all(), bytes.as_slice(), None);
    if found == 2 && place == 11 {
        Some(1)
    } else {
        None
    }
}

/// How many operators of the codes of a row stand, if all do, or how many codes are no operator's, if all are.
pub(crate) fn codes_stand(alloc: Global, maps: &Maps, row: &[u8]) -> Option<u32> {
    let (prefix, rest) = cut(row, b' ');
    let (start, rest) = cut(rest, b' ');
    let (end, rest) = cut(rest, b' ');
    let (form, becomes) = cut(rest, b' ');
    let start = code(prefix, start);
    let mut sum = 0u32;
    for number in start.number..code(prefix, end).number.saturating_add(1) {
        let code = OpCode {
            prefix: start.prefix,
            number,
        };
        let found = if becomes.is_empty() {
            is_unknown(alloc, maps, code)
        } else {
            stands_with(alloc, maps, code, form, becomes)
        };
        match found {
            Some(count) => sum = sum.saturating_add(count),
            None => return None,
        }
    }
    Some(sum)
}

/// Whether what this kind of row asks stands of the operator of a row.
pub(crate) fn is_answered(alloc: Global, maps: &Maps, kind: u8, row: &[u8]) -> bool {
    let (bytes, words) = cut(row, b' ');
    let asked: Asked<'_> = (kind, code(&[], &[]), &[], words);
    answer(
        alloc,
        maps,
        WasmFeatures::all(),
        bytes_of(bytes).as_slice(),
        Some(&asked),
    )
    .0 == 0
}
