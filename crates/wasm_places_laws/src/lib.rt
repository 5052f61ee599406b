//! Laws of places: where operators begin in the shortest spelling of a module, and which pairs of places those of a file rewritten are.
#![tactic(auto)]

pub mod laws;
