//! What is due for each section of a module is the shortest spelling of the entries of its items, renamed by the numbers that their names have.
#![tactic(auto)]

pub mod laws;
