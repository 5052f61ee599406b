//! The export section (Core Specification, binary format: export section). Exports are read one behind another, and then it is asked which
//! name stands twice.
#![tactic(auto)]

mod candidates;
mod exports;
mod repeats;

pub use exports::Exports;
