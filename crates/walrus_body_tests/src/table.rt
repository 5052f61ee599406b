//! All rows.

use crate::bench::Bench;
use crate::read;
use crate::rows::ROWS;
use std::alloc::{AllocError, Global};
use test_words::cut;

fn stands(alloc: Global, row: &[u8]) -> Result<bool, AllocError> {
    let (setting, rest) = cut(row, b' ');
    let mut bench = Bench::new(alloc)?;
    read::stands(alloc, setting, rest, &mut bench)
}

fn is_remark(row: &[u8]) -> bool {
    let (front, _) = cut(row, b'/');
    front.is_empty()
}

// How many rows stand, before the first that doesn't.
fn stand(alloc: Global) -> Result<u32, AllocError> {
    let mut rest = ROWS.as_bytes();
    let mut count = 0u32;
    for _ in 0..ROWS.len() {
        let (row, more) = cut(rest, b'\n');
        if !is_remark(row) {
            if !stands(alloc, row)? {
                return Ok(count);
            }
            count = count.saturating_add(1);
        }
        if more.is_empty() {
            return Ok(count);
        }
        rest = more;
    }
    Ok(count)
}

#[test]
fn rows(rt: HostRuntime) {
    assert!(rt; stand(rt.alloc()) == Ok(44));
}
