//! The bodies of functions are written (Core Specification, binary format: code section).
#![tactic(auto)]

mod code;
mod emission;

pub use code::{Code, emit_functions};
pub use emission::Emission;
