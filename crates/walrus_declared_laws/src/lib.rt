//! The functions that have to be declared (Core Specification, element segments): the segment that is added for them last is one that a plan adds.
#![tactic(auto)]

pub mod laws;
