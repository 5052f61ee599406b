//! The normal form of bodies: definitions, and laws as functions with nothing to do.
#![tactic(auto)]

pub mod laws;
