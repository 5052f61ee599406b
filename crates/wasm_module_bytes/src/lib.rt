//! The shortest bytes of a module's sections and bodies together.
#![tactic(auto)]

pub mod laws;
