//! Values that sections are made of, as they are read: indices, types, limits (Core Specification, binary format: values, types).
#![tactic(auto)]

mod exprs;
mod globals;
mod limits;
mod types;
mod values;

pub use exprs::{Known, read_expr, read_offset};
pub use globals::{Global, GlobalOrigin};
pub use limits::{
    Limits, MemoryType, read_limits, read_memory_limits, read_memory_numbers, read_table_limits,
};
pub use types::{
    heap_record, is_named_below, plain_record, read_ref_type, read_value_type, ref_record,
    value_record,
};
pub use values::{read_below, read_index, read_name, read_u32, read_zero, take_byte};

// Passed on to crates above, which then list this one alone.
pub mod section_reader {
    pub use walrus_section_reader::{Entries, Fault, FaultKind, Limited, Result, Space};
}
