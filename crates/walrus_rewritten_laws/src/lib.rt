//! What emission writes of a module that was read, and of which what isn't kept was dropped, is the file rewritten: laws that tie what is known of each step.
#![tactic(auto)]

pub mod laws;
