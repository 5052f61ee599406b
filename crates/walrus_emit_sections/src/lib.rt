//! The sections of a module's items are written, each in its shortest spelling (Core Specification, binary format: modules).
#![tactic(auto)]

// What was written stays, or the caller hands the refusal on.
macro_rules! put {
    ($call:expr) => {
        match $call {
            Ok(()) => {}
            Err(error) => return Err(error),
        }
    };
}

mod data;
mod exports;
mod globals;
mod memories;
mod own;
mod tables;
mod tags;

pub use data::emit_data;
pub use exports::emit_exports;
pub use globals::{emit_globals, write_global_type};
pub use memories::{emit_memories, write_memory};
pub use own::{OwnEntry, check_live, live_count, write_limited, write_own};
pub use tables::{emit_tables, write_table_type};
pub use tags::{emit_tags, write_tag};
