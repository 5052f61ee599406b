//! The sections of a file, from its first byte to its last (Core Specification, binary format: modules). Bodies are read later.
#![tactic(auto)]

mod contents;
mod entry;
mod file;
mod header;
mod pieces;

pub use file::read_sections;
