//! The types of a file that was read, put into a module.
#![tactic(auto)]

mod into;
pub mod laws;

pub use into::read_types_into;

// Passed on to crates above, which then list this one alone.
pub mod known_sections {
    pub use walrus_known_sections::{Chunk, Function};
}
