//! What operators name, and block types of modules, as runs ask for them: laws as functions with nothing to do.
#![tactic(auto)]

pub mod laws;
