//! Laws of rewriting: what is written of a module is told by the module.
//!
//! Two plans by which what is kept of a module is written, in order, list the same items and give one part.
#![tactic(auto)]

pub mod laws;
