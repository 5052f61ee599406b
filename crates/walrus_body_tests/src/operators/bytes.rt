//! Codes of operators as words and bytes.

use test_words::{Bytes, bytes_of, head, lower, number};
use wasm_operators::OpCode;

/// A prefix and a number as a code: of one byte in hexadecimal where the prefix is 00.
pub(crate) fn code(prefix: &[u8], word: &[u8]) -> OpCode {
    let prefix = head(bytes_of(prefix).as_slice());
    let number = if prefix == 0 {
        u32::from(head(bytes_of(word).as_slice()))
    } else {
        lower(number(word)) % 0x1_0000
    };
    OpCode { prefix, number }
}

/// The code, of one byte where the prefix is 0, and the bytes of a word behind it.
pub(crate) fn text_of(code: OpCode, word: &[u8]) -> Bytes {
    let low = (code.number % 0x80) as u8;
    let mut bytes = Bytes::of(b"");
    if code.prefix == 0 {
        bytes.push((code.number % 0x100) as u8);
    } else {
        bytes.push(code.prefix);
        if code.number < 0x80 {
            bytes.push(low);
        } else {
            bytes.push(low + 0x80);
            bytes.push((code.number / 0x80 % 0x80) as u8);
        }
    }
    bytes.push_word(word);
    bytes
}
