//! What was written of a module is within the limits of readers, as more is refused.
#![tactic(auto)]

pub mod laws;
