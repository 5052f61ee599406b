//! What is true of each module that was read, field by field (Core Specification, valid modules).
#![tactic(auto)]

pub mod laws;
