//! Numbers in base 64 with variable length: five bits a digit, the lowest first; the lowest of all is the sign.

use std::alloc::AllocError;

const DIGITS: &[u8; 64] = b"ABCDEFGHIJKLMNOPQRSTUVWXYZabcdefghijklmnopqrstuvwxyz0123456789+/";

// The most digits of a number.
const MAX_DIGITS: usize = 13;

/// The value of a digit.
pub fn digit_of(byte: u8) -> Option<u64> {
    let found = DIGITS.iter().position(|digit| *digit == byte)?;
    Some(found as u64)
}

/// The number whose sign is the lowest bit.
pub fn signed(number: u64) -> i64 {
    let size = i64::try_from(number / 2).unwrap_or(0);
    if number % 2 == 1 {
        size.wrapping_neg()
    } else {
        size
    }
}

/// A number while it is read.
#[derive(Clone, Copy)]
pub struct Part {
    /// What was read.
    pub number: u64,
    /// What the next digit counts.
    pub scale: u64,
}

/// A number of which nothing was read.
pub const NO_DIGITS: Part = Part {
    number: 0,
    scale: 1,
};

/// The number with one more digit; `None` past 12 digits.
pub fn with_digit(part: Part, digit: u64) -> Option<Part> {
    let more = (digit % 32).checked_mul(part.scale)?;
    let number = part.number.checked_add(more)?;
    let scale = part.scale.checked_mul(32)?;
    Some(Part { number, scale })
}

// The character of a digit.
fn character(digit: u64) -> char {
    match DIGITS.get(digit as usize) {
        Some(byte) => char::from(*byte),
        None => 'A',
    }
}

// The number as it is written: its sign is the lowest bit.
fn unsigned(number: i64) -> u64 {
    let size = number.unsigned_abs().wrapping_mul(2);
    if number < 0 {
        size.wrapping_add(1)
    } else {
        size
    }
}

/// Adds a number.
///
/// # Errors
///
/// Want of memory.
pub fn encode_number(out: &mut String, number: i64) -> Result<(), AllocError> {
    let mut left = unsigned(number);
    for _ in 0..MAX_DIGITS {
        let digit = left % 32;
        left /= 32;
        if left == 0 {
            return out.push(character(digit));
        }
        out.push(character(digit + 32))?;
    }
    Ok(())
}
