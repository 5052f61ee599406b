//! What the bytes give of a module that was read, beyond its rules.
#![tactic(auto)]

pub mod laws;
