//! What is left of reading a module once its rules are taken away: bytes that spell it.
#![tactic(auto)]

pub mod laws;
