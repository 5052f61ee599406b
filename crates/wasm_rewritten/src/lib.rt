//! What rewriting is, over whole modules, and runs of a module and of what is written of it.
//!
//! Definitions (what bytes are the input rewritten, which written operator stands for which), and laws: runs of each exported or start function correspond.
#![tactic(auto)]

pub mod laws;
