//! The type section is written, from records whose names are indices (Core Specification, binary format: types, type section).
#![tactic(auto)]

// What was written stays, or the caller hands the refusal on.
macro_rules! put {
    ($call:expr) => {
        match $call {
            Ok(()) => {}
            Err(error) => return Err(error),
        }
    };
}

mod groups;
mod kinds;
mod section;
mod values;

pub use section::emit_types;
