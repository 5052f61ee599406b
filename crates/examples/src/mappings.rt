//! The mappings of a source map (ECMA-426): lists of segments, each of 1, 4 or 5 numbers, written as differences from those of the
//! segment before, in base 64 with variable length. Of a module there is one line, and the column is the offset in the file.

use crate::digits::{NO_DIGITS, Part, digit_of, encode_number, signed, with_digit};
use std::alloc::{AllocError, Global};

/// A segment: offset, source, line, column, name, of which so many are written.
#[derive(Clone, Copy)]
pub struct Segment {
    /// The numbers.
    pub fields: [i64; 5],
    /// How many are written.
    pub count: usize,
}

// Adds a difference to the next number of a segment; `None` past the last.
fn add_number(segment: &mut Segment, number: i64) -> Option<()> {
    let field = segment.fields.get_mut(segment.count)?;
    *field = field.wrapping_add(number);
    segment.count = segment.count.saturating_add(1);
    Some(())
}

// Reads a digit behind those of a part, and gives the part that is left.
fn add_byte(segment: &mut Segment, part: Part, byte: u8) -> Option<Part> {
    let digit = digit_of(byte)?;
    let part = with_digit(part, digit)?;
    if digit >= 32 {
        return Some(part);
    }
    add_number(segment, signed(part.number))?;
    Some(NO_DIGITS)
}

// A segment, given as text, behind the numbers so far.
fn decode_one(text: &str, fields: [i64; 5]) -> Option<Segment> {
    let mut segment = Segment { fields, count: 0 };
    let mut part = NO_DIGITS;
    for byte in text.as_bytes() {
        part = add_byte(&mut segment, part, *byte)?;
    }
    if part.scale > 1 || segment.count == 0 {
        return None;
    }
    Some(segment)
}

/// The segments of the first line; nothing where the text is malformed.
pub fn decode(alloc: Global, text: &str) -> Result<Option<Vec<Segment>>, AllocError> {
    let mut segments = Vec::new(alloc);
    let mut fields = [0i64; 5];
    for part in text.split(',') {
        if part.is_empty() {
            continue;
        }
        let Some(segment) = decode_one(part, fields) else {
            return Ok(None);
        };
        fields = segment.fields;
        segments.push(segment)?;
    }
    Ok(Some(segments))
}

// The numbers of a segment, behind those of the one before.
fn encode_one(out: &mut String, last: &[i64; 5], segment: &Segment) -> Result<(), AllocError> {
    for (field, (new, old)) in segment.fields.iter().zip(last.iter()).enumerate() {
        if field < segment.count {
            encode_number(out, new.wrapping_sub(*old))?;
        }
    }
    Ok(())
}

/// The text of segments.
pub fn encode(alloc: Global, segments: &[Segment]) -> Result<String, AllocError> {
    let mut out = String::new(alloc);
    let mut last = [0i64; 5];
    for segment in segments {
        if !out.is_empty() {
            out.push(',')?;
        }
        encode_one(&mut out, &last, segment)?;
        last = follow(last, segment);
    }
    Ok(out)
}

// The numbers behind a segment: those that it doesn't write stay.
fn follow(last: [i64; 5], segment: &Segment) -> [i64; 5] {
    let new = segment.fields;
    match segment.count {
        0 => last,
        1 => [new[0], last[1], last[2], last[3], last[4]],
        4 => [new[0], new[1], new[2], new[3], last[4]],
        _ => new,
    }
}
