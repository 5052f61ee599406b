//! Custom sections, names and producers that are written of a module that was read are those of its file.
#![tactic(auto)]

pub mod laws;
