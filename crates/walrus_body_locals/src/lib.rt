//! The locals that bodies declare are read (Core Specification, binary format: code section).
#![tactic(auto)]

mod class;
mod named;
mod runs;
mod value_types;

pub use class::{Class, next_class};
pub use runs::read_locals;

// Passed on to crates above, which then list this one alone.
pub mod body_env {
    pub use walrus_body_env::{BodyEnv, BodyError, Validator};
}

pub mod body_nesting {
    pub use walrus_body_nesting::Reach;
}
