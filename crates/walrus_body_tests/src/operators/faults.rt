//! Features that are off, and faults at their places. The first byte of each text stands at 11.

use crate::operators::maps::Maps;
use crate::operators::view::{ANSWERS, answer};
use std::alloc::Global;
use test_words::{bytes_of, cut, head, nth, number};
use wasm_reader::WasmFeatures;

fn without(feature: &[u8]) -> WasmFeatures {
    match head(feature) {
        b'l' => WasmFeatures::all().difference(WasmFeatures::LEGACY_EXCEPTIONS),
        b'w' => WasmFeatures::all().difference(WasmFeatures::WIDE_ARITHMETIC),
        _ => WasmFeatures::all(),
    }
}

/// Whether the bytes of a row are refused as it says.
pub(crate) fn is_refused(alloc: Global, maps: &Maps, row: &[u8]) -> bool {
    let (off, rest) = cut(row, b' ');
    let (bytes, rest) = cut(rest, b' ');
    let (answers, rest) = cut(rest, b' ');
    let (missing, place) = cut(rest, b' ');
    let found = answer(alloc, maps, without(off), bytes_of(bytes).as_slice(), None);
    nth(ANSWERS.as_bytes(), found.0) == answers
        && found.1 == number(missing)
        && found.2 == number(place)
}
