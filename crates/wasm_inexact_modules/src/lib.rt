//! No heap type in a module that was read is exact: no bytes spell one.
#![tactic(auto)]

pub mod laws;
