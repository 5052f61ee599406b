//! The sections whose entries look at several collections of a module are written: imports, functions, the start function, element segments, the
//! count of data segments (Core Specification, binary format: modules).
#![tactic(auto)]

// What was written stays, or the caller hands the refusal on.
macro_rules! put {
    ($call:expr) => {
        match $call {
            Ok(()) => {}
            Err(error) => return Err(error),
        }
    };
}

mod data_count;
mod elements;
mod functions;
mod imports;
mod start;

pub use data_count::emit_data_count;
pub use elements::emit_elements;
pub use functions::emit_function_types;
pub use imports::emit_imports;
pub use start::emit_start;
