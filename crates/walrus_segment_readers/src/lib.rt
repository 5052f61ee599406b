//! Element and data segments, read one by one (Core Specification, binary format: element section, data section).
#![tactic(auto)]

mod lists;
mod segments;

pub use segments::{DataForm, ElementForm, Elements, Segments};

// Passed on to crates above, which then list this one alone.
pub mod entry_readers {
    pub use walrus_entry_readers::{Functions, Globals, Imports, Memories, Tables, Tags};
}
