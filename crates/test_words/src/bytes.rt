//! Bytes that words stand for, and texts of a few bytes.

use crate::numbers::digit;
use std::alloc::AllocError;

/// A few bytes.
#[derive(Clone, Copy)]
pub struct Bytes {
    bytes: [u8; 96],
    len: usize,
}

impl Bytes {
    /// These bytes, or the first of them.
    pub fn of(bytes: &[u8]) -> Bytes {
        let mut these = Bytes {
            bytes: [0; 96],
            len: 0,
        };
        these.push_all(bytes);
        these
    }

    /// Puts a byte behind them, if there is room.
    pub fn push(&mut self, byte: u8) {
        let at = self.len;
        if at < 96 {
            self.bytes[at] = byte;
            self.len = at + 1;
        }
    }

    /// Puts these behind them, as far as there is room.
    pub fn push_all(&mut self, bytes: &[u8]) {
        for byte in bytes {
            self.push(*byte);
        }
    }

    /// Puts the bytes of a word behind them, of two digits each.
    pub fn push_word(&mut self, word: &[u8]) {
        let mut high = 0u8;
        let mut is_low = false;
        for byte in word {
            let half = digit(*byte);
            if is_low {
                self.push(high.wrapping_mul(16).wrapping_add(half));
            }
            high = half;
            is_low = !is_low;
        }
    }

    /// The first of them, so many at most.
    pub fn first(&self, most: usize) -> &[u8] {
        let len = most.min(self.len).min(96);
        &self.bytes[..len]
    }

    pub fn as_slice(&self) -> &[u8] {
        self.first(96)
    }

    /// Their text, if they are one.
    pub fn as_str(&self) -> &str {
        text_of(self.as_slice())
    }
}

/// The bytes of a word, of two digits each. A single `-` stands for none.
pub fn bytes_of(word: &[u8]) -> Bytes {
    let mut bytes = Bytes::of(b"");
    bytes.push_word(word);
    bytes
}

/// The text of bytes that are one, else an empty one.
pub fn text_of(bytes: &[u8]) -> &str {
    match str::from_utf8(bytes) {
        Ok(text) => text,
        Err(_) => "",
    }
}

/// Puts the bytes of a word, of two digits each, behind these.
pub fn push_bytes(bytes: &mut Vec<u8>, word: &[u8]) -> Result<(), AllocError> {
    let mut high = 0u8;
    let mut is_low = false;
    for byte in word {
        let half = digit(*byte);
        if is_low {
            bytes.push(high.wrapping_mul(16).wrapping_add(half))?;
        }
        high = half;
        is_low = !is_low;
    }
    Ok(())
}

/// Whether these are just the bytes of a word.
pub fn are_bytes(bytes: &[u8], word: &[u8]) -> bool {
    let mut high = 0u8;
    let mut is_low = false;
    let mut at = 0usize;
    for byte in word {
        let half = digit(*byte);
        if is_low {
            if bytes.get(at) != Some(&high.wrapping_mul(16).wrapping_add(half)) {
                return false;
            }
            at = at.saturating_add(1);
        }
        high = half;
        is_low = !is_low;
    }
    at == bytes.len()
}
