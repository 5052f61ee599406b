//! Codes on which wrong bodies are tried: behind a prefix, and those of loads and atomic operators (Core Specification, binary format: memory
//! instructions; the proposal on threads). The others stand in `walrus_pairing`.
#![tactic(auto)]

// A code, written out: a call for each would be a good part of what the proofs of the large matches take.
macro_rules! code {
    ($prefix:literal, $number:literal) => {
        OpCode {
            prefix: $prefix,
            number: $number,
        }
    };
}

mod access;
mod code;

pub use access::{code_of_cmpxchg, code_of_load, code_of_rmw};
pub use code::{atomic, saturating};
