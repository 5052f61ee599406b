//! Formats: how values stand in bytes, which rules they meet, how they are parsed from left to right, and
//! where that stops; each grammar is written once, and all of this comes of it.
#![tactic(auto)]

mod fault;

pub use fault::{Form, Limited, Space};

// Passed on to crates above, which then list this one alone.
pub mod reader {
    pub use wasm_reader::{Error, ErrorKind};
}
