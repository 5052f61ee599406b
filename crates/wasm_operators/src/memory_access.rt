//! Accesses to memory (Core Specification, binary format: memory instructions).

/// Where an operator accesses memory, as it is written: nothing is tested of the alignment, of the offset and of the memory.
/// (`read_access` reads one.)
#[derive(Clone, Copy, PartialEq, Eq)]
pub struct MemoryAccess {
    /// The logarithm of the alignment in bytes, to the base 2.
    pub align: u32,
    /// The number of the memory.
    pub memory: u32,
    /// What is added to the address, in bytes.
    pub offset: u64,
}
