//! A module is written (Core Specification, binary format: modules).
#![tactic(auto)]

// What was written stays, or the caller hands the refusal on.
macro_rules! put {
    ($call:expr) => {
        match $call {
            Ok(()) => {}
            Err(error) => return Err(error),
        }
    };
}

mod checks;
mod contents;
mod context;
mod emit;
mod segment;
mod transform;
mod whole;

pub use checks::check_module;
pub use context::EmitContext;
pub use emit::Emit;
pub use segment::declare;
pub use walrus_emit_code::Emission;
pub use whole::{EmitWasm, Emitted, emit_sound};
