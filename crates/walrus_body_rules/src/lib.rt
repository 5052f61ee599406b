//! What is asked of a body's operators, in words of what its parser sees of the module; laws as functions with nothing to do.
#![tactic(auto)]

pub mod laws;
