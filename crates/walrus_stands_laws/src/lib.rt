//! What emission writes of a module that was read, and of which what isn't kept was dropped, stands for its file.
#![tactic(auto)]

pub mod laws;
