//! The grammar of function bodies: which bytes read as which body, and where reading stops (Core Specification, binary format:
//! code section). Definitions, and laws as functions with nothing to do.
#![tactic(auto)]

pub mod laws;
