//! What is done to tables of types and asked of them, and what they write.

use crate::tables::steps::take;
use crate::tables::writing::are_so;
use std::alloc::Global;
use test_words::cut;
use walrus_types::{IrError, ModuleTypes};

fn take_all(alloc: Global, types: &mut ModuleTypes, steps: &[u8]) -> Result<bool, IrError> {
    let mut agree = true;
    let mut rest = steps;
    for _ in 0..steps.len() {
        if rest.is_empty() {
            break;
        }
        let (step, behind) = cut(rest, b' ');
        rest = behind;
        agree &= take(alloc, types, step)?;
    }
    Ok(agree)
}

fn holds(alloc: Global, types: &mut ModuleTypes, row: &[u8]) -> Result<bool, IrError> {
    let (steps, rest) = cut(row, b'|');
    Ok(take_all(alloc, types, steps)? && are_so(alloc, types, rest)?)
}

/// Whether all is so as the row says, in a new table: steps (see `take`), and behind a `|` what is written (see
/// `are_so`).
pub(crate) fn is_so(alloc: Global, row: &[u8]) -> Result<bool, IrError> {
    let mut types = ModuleTypes::new(alloc);
    holds(alloc, &mut types, row)
}
