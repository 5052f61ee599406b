//! What bytes are read as, or the fault and its place, by rows of text.

mod groups;
mod items;
mod numbers;
mod rows;
mod types;

use crate::readers::reading::groups::{read_group, read_many};
use crate::readers::reading::items::{read_items, read_text};
use crate::readers::reading::numbers::{ask_place, ask_state, enter, pass, read_number};
use crate::readers::reading::rows::ROWS;
use crate::readers::reading::types::{compare, read_simple, read_type};
use crate::readers::told::features;
use std::alloc::Global;
use test_words::{Words, bytes_of, cut};
use wasm_reader::BinaryReader;

fn reader_of<'a>(set: &[u8], offset: u32, bytes: &'a [u8]) -> BinaryReader<'a> {
    let offset = u64::from(offset);
    if set == "own".as_bytes() {
        BinaryReader::new(bytes, offset)
    } else {
        BinaryReader::new_features(bytes, offset, features(set))
    }
}

// Whether it is a step, which is done then: one of the functions knows the name.
fn step(alloc: Global, reader: &mut BinaryReader<'_>, name: &[u8], words: &mut Words<'_>) -> bool {
    ask_state(reader, name, words)
        | ask_place(reader, name, words)
        | read_number(alloc, reader, name, words)
        | read_simple(alloc, reader, name, words)
        | read_type(alloc, reader, name, words)
        | read_text(alloc, reader, name, words)
        | read_items(alloc, reader, name, words)
        | read_group(alloc, reader, name, words)
        | read_many(alloc, reader, name, words)
        | compare(alloc, reader, name, words)
        | enter(reader, name, words)
        | pass(reader, name, words)
}

// Whether each step of the row tells what stands behind it.
fn stands(alloc: Global, row: &[u8]) -> bool {
    let (asked, _) = cut(row, b'(');
    let mut words = Words::new(asked);
    let set = words.next();
    let offset = words.size();
    let bytes = bytes_of(words.next());
    let mut reader = reader_of(set, offset, bytes.as_slice());
    for _ in 0..row.len() {
        if words.is_end() {
            return words.agree;
        }
        let name = words.next();
        let is_step = step(alloc, &mut reader, name, &mut words);
        words.ask(is_step);
    }
    false
}

// How many rows there are, if all stand. What stands in parentheses as a whole is a heading.
fn stand(alloc: Global, text: &[u8]) -> Option<u32> {
    let mut rest = text;
    let mut sum = 0u32;
    for _ in 0..text.len() {
        let (row, next) = cut(rest, b'\n');
        if !stands(alloc, row) {
            return None;
        }
        if !row.is_empty() && row[0] != b'(' {
            sum = sum.saturating_add(1);
        }
        if next.is_empty() {
            return Some(sum);
        }
        rest = next;
    }
    None
}

#[test]
fn all_rows(rt: HostRuntime) {
    assert!(rt; stand(rt.alloc(), ROWS.as_bytes()) == Some(266));
}
