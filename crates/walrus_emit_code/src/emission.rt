//! What was written.

use std::ops::Range;
use walrus_arena::FunctionId;
use walrus_index_maps::IdsToIndices;

/// What was written of a module so far, without its custom sections.
#[derive(Drop)]
pub struct Emission {
    /// The numbers of its items.
    pub indices: IdsToIndices,
    /// The bytes.
    pub bytes: Vec<u8>,
    /// The numbers of the locations of operators that have one, each with its place behind the beginning of the code section's contents, in the order in
    /// which they are written.
    pub locations: Vec<(u32, u32)>,
    /// The bodies, without their sizes, behind that beginning, in the order in which they are written.
    pub ranges: Vec<(FunctionId, Range<usize>)>,
    /// The beginning of the code section's contents, or 0.
    pub code_section_start: usize,
}
