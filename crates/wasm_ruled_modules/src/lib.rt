//! The rules of modules, as one record over the abstract module: what is true of each module that was read.
#![tactic(auto)]

pub mod laws;
