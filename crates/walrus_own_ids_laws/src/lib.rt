//! Items of a module that was read, and of what is kept of it, have the ids by which they are found.
#![tactic(auto)]

pub mod laws;
