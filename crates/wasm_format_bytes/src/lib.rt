//! The shortest spelling of each value of a format.
#![tactic(auto)]
