//! The code section (Core Specification, binary format: code section): the bytes of bodies and their places. Bodies are read later.
#![tactic(auto)]

mod chunks;
mod code;

pub use code::{Code, read_code_section, set_bodies};
