//! What the operators of a body name, and what each does to its open sequences.
#![tactic(auto)]

mod faults;
mod handlers;
mod labels;
pub mod laws;
mod opens;
mod runs;
mod scope;
mod steps;
mod types;

pub use handlers::{handler_type, last_handler_type};
pub use labels::Labels;
pub use scope::{Operands, Scope};
pub use steps::{Step, instr_on, opened_type, opener_of, part_of, step_of};

// Passed on to crates above, which then list this one alone.
pub mod body_stack {
    pub use walrus_body_stack::Stack;
}

pub mod builder {
    pub use walrus_builder::FunctionBuilder;
}
