//! Bodies are read: from bytes to trees of instructions in normal form (Core Specification, binary format: code section).
#![tactic(auto)]

mod handlers;
mod operators;
mod steps;
mod trees;

pub use trees::read_tree;

// Passed on to crates above, which then list this one alone.
pub mod body_locals {
    pub use walrus_body_locals::read_locals;

    pub mod body_env {
        pub use walrus_body_locals::body_env::{BodyEnv, BodyError, Validator};
    }
}

pub mod body_operands {
    pub use walrus_body_operands::Operands;
}

pub mod builder {
    pub use walrus_body_operands::builder::FunctionBuilder;
}
