//! The shortest spellings of what sections hold: definitions, and laws as functions with nothing to do.
#![tactic(auto)]

pub mod laws;
