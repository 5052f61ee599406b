//! The part of a module that is written: what is kept of it, in the order in which it is written, each item's number replaced by its new one.
//!
//! Definitions (the plan of a part, what a part has to keep, its order, the segment that declares functions, when a module stands for a file's), and laws: the part of
//! a module that meets the rules meets them.
#![tactic(auto)]

pub mod laws;
