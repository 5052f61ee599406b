//! Modules as they are read, with what their payloads of names and producers say.
#![tactic(auto)]

pub mod laws;
