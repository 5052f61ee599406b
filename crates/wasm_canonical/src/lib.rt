//! The sections that are due to a module, and its canonical bytes.
//!
//! Definitions, and laws: what is due to a module in which each slot is filled spells it and reads as it, places aside, and canonical bytes that read as one module are equal.
#![tactic(auto)]

pub mod laws;
