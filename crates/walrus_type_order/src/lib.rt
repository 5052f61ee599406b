//! The order in which a list is written of which some entries, the anchors, keep their order, and those
//! between two anchors are sorted.
#![tactic(auto)]

pub mod laws;
mod order;

pub use order::emission_order;
