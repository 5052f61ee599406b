//! The shortest spellings of values, limits, operators and bodies: definitions, and laws as functions with nothing to do.
#![tactic(auto)]

pub mod laws;
