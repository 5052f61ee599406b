//! Steps over single values, and over places.

use crate::readers::told::{features, tell, tell_number};
use std::alloc::Global;
use test_words::{Words, place};
use wasm_reader::{BinaryReader, Result};

// In the order of the arms below.
const NUMBERS: &str =
    "u8 u7 peek u32 u64 f32 f64 var-u32 var-u64 var-i32 var-s33 var-i64 value-u32";

/// Reads a number, if the step does, and says so.
pub fn read_number(
    alloc: Global,
    reader: &mut BinaryReader<'_>,
    step: &[u8],
    words: &mut Words<'_>,
) -> bool {
    match place(NUMBERS.as_bytes(), step) {
        0 => tell_number(reader.read_u8(), words),
        1 => tell_number(reader.read_u7(), words),
        2 => tell_number(reader.peek(), words),
        3 => tell_number(reader.read_u32(), words),
        4 => tell_number(reader.read_u64(), words),
        5 => tell(reader.read_f32(), words),
        6 => tell(reader.read_f64(), words),
        7 => tell_number(reader.read_var_u32(), words),
        8 => tell_number(reader.read_var_u64(), words),
        9 => tell_number(reader.read_var_i32(), words),
        10 => tell_number(reader.read_var_s33(), words),
        11 => tell_number(reader.read_var_i64(), words),
        12 => tell_number(reader.read::<u32>(alloc), words),
        _ => return false,
    }
    true
}

// In the order of the arms below.
const PLACES: &str = "read left place rest-place from to rest-from";

// A place, or how many bytes there are; none where the step asks for another thing.
fn place_of(reader: &BinaryReader<'_>, step: &[u8]) -> Option<u64> {
    Some(match place(PLACES.as_bytes(), step) {
        0 => reader.current_position() as u64,
        1 => reader.bytes_remaining() as u64,
        2 => reader.original_position(),
        3 => reader.shrink().original_position(),
        4 => reader.range().start,
        5 => reader.range().end,
        6 => reader.remaining_range().start,
        _ => return None,
    })
}

/// Asks for a place, if the step does, and says so.
pub fn ask_place(reader: &BinaryReader<'_>, step: &[u8], words: &mut Words<'_>) -> bool {
    match place_of(reader, step) {
        Some(place) => {
            words.tell_number(i128::from(place));
            true
        }
        None => false,
    }
}

// In the order of the arms below.
const STATES: &str = ". last features left-at-most";

/// Asks how the reader is, if the step does, and says so.
pub fn ask_state(reader: &BinaryReader<'_>, step: &[u8], words: &mut Words<'_>) -> bool {
    let is_so = match place(STATES.as_bytes(), step) {
        0 => reader.eof(),
        1 => reader.is_end_then_eof(),
        2 => reader.features() == features(words.next()),
        3 => reader.bytes_remaining() <= words.size() as usize,
        _ => return false,
    };
    words.ask(is_so);
    true
}

// A byte and a number.
fn skip_two<'a>(reader: &mut BinaryReader<'a>) -> Result<BinaryReader<'a>> {
    reader.skip(|r| {
        r.read_u8()?;
        r.read_var_u32()?;
        Ok(())
    })
}

// Nothing is skipped where the reader is put back, to another that begins at 7.
fn go_back<'a>(reader: &mut BinaryReader<'a>) -> Result<BinaryReader<'a>> {
    reader.skip(|r| {
        *r = BinaryReader::new(&[0x7f], 7);
        Ok(())
    })
}

// In the order of the arms below.
const PARTS: &str = "window skipped back";

// A part of what is left, which the reader is then behind.
fn part<'a>(reader: &mut BinaryReader<'a>, step: &[u8]) -> Option<Result<BinaryReader<'a>>> {
    match place(PARTS.as_bytes(), step) {
        0 => Some(reader.read_reader()),
        1 => Some(skip_two(reader)),
        2 => Some(go_back(reader)),
        _ => None,
    }
}

/// Moves the reader into a part, if the step does, and says so.
pub fn enter(reader: &mut BinaryReader<'_>, step: &[u8], words: &mut Words<'_>) -> bool {
    match part(reader, step) {
        Some(Ok(part)) => *reader = part,
        Some(Err(_)) => words.ask(false),
        None => return false,
    }
    true
}

/// Moves the reader behind a part, if the step is `past` and one of these, and says so.
pub fn pass(reader: &mut BinaryReader<'_>, step: &[u8], words: &mut Words<'_>) -> bool {
    if step != "past".as_bytes() {
        return false;
    }
    match part(reader, words.next()) {
        Some(Ok(_)) => {}
        _ => words.ask(false),
    }
    true
}
