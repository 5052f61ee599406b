//! The grammar of the sections of a module, each at the state that those before it left (Core Specification, binary format: modules). What is in
//! bodies is read later: here they are so many bytes.
#![tactic(auto)]

pub mod laws;
