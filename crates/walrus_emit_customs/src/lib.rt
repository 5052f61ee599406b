//! The custom sections of a module are written: the names of its items, and the sections that it was given (Core Specification, binary format:
//! custom section; appendix Custom Sections).
#![tactic(auto)]

// What was written stays, or the caller hands the refusal on.
macro_rules! put {
    ($call:expr) => {
        match $call {
            Ok(()) => {}
            Err(error) => return Err(error),
        }
    };
}

mod customs;
mod names;

pub use customs::{transform_sections, write_sections};
pub use names::emit_names;
