//! The numbers that emission gives a module are those of a plan, by which the part of it that has all that lives is written.
#![tactic(auto)]

pub mod laws;
