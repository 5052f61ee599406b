//! Which bytes read as which module, and where reading stops (Core Specification, binary format: modules).
#![tactic(auto)]

pub mod laws;
