//! All rows, over the same maps.

use crate::operators::codes::{codes_stand, is_answered};
use crate::operators::faults::is_refused;
use crate::operators::maps::Maps;
use crate::operators::pairing::has_no_instr;
use crate::operators::rows::ROWS;
use std::alloc::Global;
use test_words::{cut, head, number};

// The sum of a kind behind one more row, of operators, codes or rows, if it stands. It is 0 again behind the row of the sum.
fn sum_with(alloc: Global, maps: &Maps, sum: u32, row: &[u8]) -> Option<u32> {
    let (kind, words) = cut(row, b' ');
    let stands = match head(kind) {
        b's' => {
            return if number(words) == sum as u64 {
                Some(0)
            } else {
                None
            };
        }
        b'c' => {
            return match codes_stand(alloc, maps, words) {
                Some(count) => Some(sum.saturating_add(count)),
                None => None,
            };
        }
        b'f' => is_refused(alloc, maps, words),
        b'm' => has_no_instr(alloc, maps, words),
        kind => is_answered(alloc, maps, kind, words),
    };
    if stands {
        Some(sum.saturating_add(1))
    } else {
        None
    }
}

/// Whether all rows stand, over maps that are filled.
pub(crate) fn all_stand(alloc: Global, maps: &Maps) -> bool {
    let mut rest = ROWS.as_bytes();
    let mut sum = 0u32;
    for _ in 0..ROWS.len() {
        let (row, next) = cut(rest, b'\n');
        match sum_with(alloc, maps, sum, row) {
            Some(now) => sum = now,
            None => return false,
        }
        if next.is_empty() {
            return sum == 0;
        }
        rest = next;
    }
    false
}
