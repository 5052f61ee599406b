//! Laws of runs: bodies and modules do what their normal forms do, and renamed ones the same, renamed.
#![tactic(auto)]

pub mod laws;
