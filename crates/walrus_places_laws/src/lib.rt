//! Laws of places: the pairs that the writing of a module's code leaves are those of the bodies that it means, and the pairs of places of the file that was rewritten.
#![tactic(auto)]

pub mod laws;
