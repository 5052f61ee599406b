//! Entries of the sections of a file, one by one: each is read, and put into what was read before it (Core Specification, binary
//! format: modules).
#![tactic(auto)]

mod entities;
mod imports;
mod kinds;

pub use entities::{GlobalEntry, TableEntry, read_init, read_place};
pub use imports::{Entity, ImportEntry, Imports};
pub use kinds::{Functions, Globals, Memories, Tables, Tags};
pub use walrus_known_sections::{
    Chunk, Custom, Data, Each, Element, ElementItems, Entry, Export, Function, GlobalType, Import,
    KnownTypes, Memory, Mode, Sections, Table, TableType, Tag, in_room,
};

// Passed on to crates above, which then list this one alone.
pub mod formats {
    pub use walrus_section_values::section_reader::{Limited, Space};
}

pub mod operators {
    pub use walrus_operators::Operator;
}

pub mod section_reader {
    pub use walrus_section_values::section_reader::{Fault, FaultKind, Result};
}

pub mod section_values {
    pub use walrus_section_values::{read_index, read_name, read_ref_type, read_u32, read_zero};
}
