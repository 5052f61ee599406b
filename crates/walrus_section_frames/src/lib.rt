//! What frames the sections of a file: their ids in order, custom sections, the start function, the data count, and what is missing at
//! the end (Core Specification, binary format: modules).
#![tactic(auto)]

mod custom;
mod ends;
mod order;
mod singles;

pub use custom::{put_custom_section, read_custom, read_custom_section};
pub use ends::has_all;
pub use order::{rank, read_section_id};
pub use singles::{DataCount, Start};

// Passed on to crates above, which then list this one alone.
pub mod known_sections {
    pub use walrus_entry_readers::{Each, Sections};
}

pub mod section_values {
    pub use walrus_entry_readers::section_values::read_u32;
}
