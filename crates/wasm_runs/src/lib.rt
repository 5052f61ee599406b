//! Runs of functions: what they do, without operands, and their traces; definitions, and laws as functions with nothing to do.
#![tactic(auto)]

pub mod laws;
