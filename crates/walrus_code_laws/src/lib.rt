//! What is due for the code section is the shortest spelling of the bodies that are meant, renamed by the numbers that items and locals have.
#![tactic(auto)]

pub mod laws;
