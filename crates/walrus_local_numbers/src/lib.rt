//! The locals that a body declares: which, in which order, and as which bytes.
#![tactic(auto)]

mod declared;
mod emit;
pub mod laws;
mod numbers;
mod runs;

pub use emit::emit_locals;
