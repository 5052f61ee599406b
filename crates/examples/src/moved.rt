//! The segments of a source map where their operators went.

use crate::mappings::{Segment, encode};
use std::alloc::{AllocError, Global};
use walrus::ir::InstrLocId;
use walrus::{CodeTransform, Places};

// The location of an offset in the file; none in front of the code.
fn location_of(start: usize, old: i64) -> Option<u32> {
    let offset = usize::try_from(old).ok()?;
    let from_start = offset.checked_sub(start)?;
    u32::try_from(from_start).ok()
}

// Where the operator at an offset went; nothing where it is gone.
fn follow(transform: &CodeTransform, start: usize, old: i64) -> Option<i64> {
    let location = location_of(start, old)?;
    if location == u32::MAX {
        return None;
    }
    let new = transform.get(InstrLocId::new(location))?;
    i64::try_from(new).ok()
}

// The segment where its operator went.
fn moved(transform: &CodeTransform, start: usize, segment: &Segment) -> Option<Segment> {
    let mut segment = *segment;
    segment.fields[0] = follow(transform, start, segment.fields[0])?;
    Some(segment)
}

// The segments whose operators are still there.
fn kept(
    alloc: Global,
    transform: &CodeTransform,
    start: usize,
    segments: &[Segment],
) -> Result<Vec<Segment>, AllocError> {
    let mut kept: Vec<Segment> = Vec::new(alloc);
    for segment in segments {
        if let Some(segment) = moved(transform, start, segment) {
            kept.push(segment)?;
        }
    }
    Ok(kept)
}

/// The text of the segments whose operators are still there, by where these are. Locations count from the start of the code that was read.
///
/// # Errors
///
/// Want of memory.
pub fn followed(
    alloc: Global,
    transform: &CodeTransform,
    start: usize,
    segments: &[Segment],
) -> Result<String, AllocError> {
    let mut kept = kept(alloc, transform, start, segments)?;
    kept.sort_by_key(|segment| segment.fields[0])?;
    encode(alloc, kept.as_slice())
}
