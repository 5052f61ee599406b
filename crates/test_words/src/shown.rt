//! What values write.

use crate::bytes::Bytes;
use crate::words::cut;
use std::alloc::Global;
use std::fmt::Display;

/// Whether a value writes this text.
pub fn is_shown<T: Display>(alloc: Global, value: &T, text: &[u8]) -> bool {
    match value.to_string(alloc) {
        Ok(shown) => shown.as_bytes() == text,
        Err(_) => false,
    }
}

/// Whether the values write these texts, between which a `;` stands.
pub fn are_shown<T: Display>(alloc: Global, values: &[T], texts: &[u8]) -> bool {
    let mut rest = texts;
    for value in values {
        let (text, next) = cut(rest, b';');
        if !is_shown(alloc, value, text) {
            return false;
        }
        rest = next;
    }
    rest.is_empty()
}

/// What a value writes.
pub fn written<T: Display>(alloc: Global, value: &T) -> Bytes {
    match value.to_string(alloc) {
        Ok(text) => Bytes::of(text.as_bytes()),
        Err(_) => Bytes::of(b""),
    }
}
