//! Numbers that words stand for.

/// What a digit stands for, of those behind 9, too.
pub fn digit(byte: u8) -> u8 {
    if byte < b'a' {
        byte.saturating_sub(b'0')
    } else {
        byte - b'a' + 10
    }
}

// The digits of a word as a number, and whether a `-` stands among them. Other signs count for nothing.
fn digits(word: &[u8]) -> (u64, bool) {
    let mut number = 0u64;
    let mut is_negative = false;
    for byte in word {
        if *byte == b'-' {
            is_negative = true;
        } else if b'0' <= *byte && *byte <= b'9' {
            number = number
                .wrapping_mul(10)
                .wrapping_add(u64::from(*byte - b'0'));
        }
    }
    (number, is_negative)
}

/// A decimal number, below zero behind a `-`; 0 where there is no digit.
pub fn integer(word: &[u8]) -> i128 {
    let (number, is_negative) = digits(word);
    if is_negative {
        0i128.wrapping_sub(i128::from(number))
    } else {
        i128::from(number)
    }
}

/// The same in 64 bits: those below zero count from 2^64 down.
pub fn number(word: &[u8]) -> u64 {
    let (number, is_negative) = digits(word);
    if is_negative {
        0u64.wrapping_sub(number)
    } else {
        number
    }
}

/// The lower half of a number.
pub fn lower(number: u64) -> u32 {
    (number % 0x1_0000_0000) as u32
}
