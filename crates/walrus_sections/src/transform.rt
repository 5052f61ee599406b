//! Where a module's code was written.
ghost use Rattle.std.specs.Prelude.{◌≡◌, IfOk};

use std::alloc::AllocError;
use std::ops::Range;
use walrus_arena::FunctionId;
use walrus_instr::InstrLocId;

/// Where the code of a module stands in the bytes that were written for it. Offsets are in bytes.
#[derive(Drop)]
pub struct CodeTransform {
    /// Of each location of an instruction, by rising location, the offset at which it was written.
    pub instruction_map: Vec<(InstrLocId, usize)>,
    /// The offset of the function count of the code section.
    pub code_section_start: usize,
    /// Of each local function, by rising id, the offsets of its body, behind the body's size.
    pub function_ranges: Vec<(FunctionId, Range<usize>)>,
}

impl CodeTransform {
    /// An equal one.
    ///
    /// # Errors
    ///
    /// Want of memory.
    pub fn clone(&self) -> Result<Self, AllocError>
        ensures map { IfOk result (λ copy. copy.instruction_map.items ≡ self.now.instruction_map.items) }
        ensures start { IfOk result (λ copy. copy.code_section_start ≡ self.now.code_section_start) }
        ensures ranges { IfOk result (λ copy. copy.function_ranges.items ≡ self.now.function_ranges.items) }
    {
        Ok(CodeTransform {
            instruction_map: self.instruction_map.clone()?,
            code_section_start: self.code_section_start,
            function_ranges: self.function_ranges.clone()?,
        })
    }
}
