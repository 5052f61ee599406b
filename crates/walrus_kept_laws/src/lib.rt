//! What is kept of a module that was read, by the numbers of its file.
//!
//! What `gc::run` leaves means what the module means, without what isn't kept; a plan that lists what is left writes the same of both, and has just what is kept.
#![tactic(auto)]

pub mod laws;
