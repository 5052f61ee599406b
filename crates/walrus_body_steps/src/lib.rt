//! What the open sequences of a body that is read mean: laws as functions with nothing to do.
#![tactic(auto)]

pub mod laws;
