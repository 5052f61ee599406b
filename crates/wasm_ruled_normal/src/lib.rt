//! The normal form of operators that meet the rules of bodies: laws as functions with nothing to do.
#![tactic(auto)]

pub mod laws;
