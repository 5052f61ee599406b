//! What reading answers of bytes, and what is asked of the operator that they are.

use crate::operators::maps::Maps;
use crate::operators::numbers::{FORMS, place};
use crate::operators::pairing::{MADE, made};
use std::alloc::Global;
use test_words::{bytes_of, nth};
use walrus_operators::{Operator, OperatorError, OperatorReader, write_operator};
use wasm_operators::OpCode;
use wasm_reader::{BinaryReader, ErrorKind, WasmFeatures};

/// What is asked of an operator: a kind, as the first byte of a row's first word, a code, the form of its immediates, and words.
///
/// - `c`: it has that code, and immediates of that form, it and its copy are written as its bytes, and pairing makes of it what the words say.
/// - `p`: it is written as the bytes of the words.
/// - `r`: the operator of its instruction is.
/// - `i`: its instruction has these ids in its fields.
pub(crate) type Asked<'a> = (u8, OpCode, &'a [u8], &'a [u8]);

/// The operator is written as these bytes.
pub(crate) fn is_written(alloc: Global, operator: &Operator, expected: &[u8]) -> bool {
    let mut out = Vec::new(alloc);
    write_operator(&mut out, operator).is_ok() && out.as_slice() == expected
}

fn is_copied(alloc: Global, operator: &Operator, bytes: &[u8]) -> bool {
    match operator.clone() {
        Ok(copy) => is_written(alloc, &copy, bytes),
        Err(_) => false,
    }
}

fn is_so(alloc: Global, maps: &Maps, operator: &Operator, bytes: &[u8], asked: &Asked<'_>) -> bool {
    let (kind, code, form, words) = *asked;
    match kind {
        b'c' => {
            (operator.code == code)
                & (nth(FORMS.as_bytes(), place(&operator.immediates)) == form)
                & is_written(alloc, operator, bytes)
                & is_copied(alloc, operator, bytes)
                & (nth(MADE.as_bytes(), made(alloc, maps, operator, bytes, &[])) == words)
        }
        b'p' => is_written(alloc, operator, bytes_of(words).as_slice()),
        b'r' => made(alloc, maps, operator, bytes_of(words).as_slice(), &[]) == 0,
        b'i' => made(alloc, maps, operator, bytes, words) == 0,
        _ => false,
    }
}

// The place of a kind of fault in the text below, and how many bytes are missing.
fn named(kind: ErrorKind) -> (u32, u64) {
    match kind {
        ErrorKind::EndOfFile(missing) => (END, missing as u64),
        ErrorKind::TooLong => (4, 0),
        ErrorKind::TooLarge => (5, 0),
        ErrorKind::BadByte => (6, 0),
        _ => (1, 0),
    }
}

/// What reading answers: `none` is an operator of which stands what is asked, `other` one of which it doesn't, or another fault.
pub(crate) const ANSWERS: &str = "none other unknown end long large bad";

/// The place of `end` in the text.
pub(crate) const END: u32 = 3;

/// What reading the first operator of the bytes answers: the place of a word of the text, how many bytes are missing, and the fault's place.
/// The first byte stands at 11. Of an operator nothing may be asked.
pub(crate) fn answer(
    alloc: Global,
    maps: &Maps,
    features: WasmFeatures,
    bytes: &[u8],
    asked: Option<&Asked<'_>>,
) -> (u32, u64, u64) {
    let mut reader = OperatorReader::new(BinaryReader::new_features(bytes, 11, features));
    match reader.read(alloc) {
        Ok(operator) => {
            let stands = match asked {
                Some(asked) => is_so(alloc, maps, &operator, bytes, asked),
                None => true,
            };
            (if stands & reader.eof() { 0 } else { 1 }, 0, 0)
        }
        Err(OperatorError::Read(e)) => {
            let (kind, missing) = named(e.kind());
            (kind, missing, e.offset())
        }
        Err(OperatorError::Unknown(offset)) => (2, 0, offset),
    }
}
