//! Groups of types, read one by one (Core Specification, binary format: recursive types).
#![tactic(auto)]

mod groups;
mod names;
mod records;

pub use groups::Types;
