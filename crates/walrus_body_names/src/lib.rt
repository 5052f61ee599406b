//! What the operators of a body name, and what is known of it before it is written.
#![tactic(auto)]

mod distinct;
mod facts;
mod names;

pub use facts::{FunctionFacts, emit_facts, is_const, used_data_segments};
pub use names::{named_locals, named_segments};

// Passed on to crates above, which then list this one alone.
pub mod body_env {
    pub use walrus_body_writer::body_env::{BodyEnv, BodyError, Validator};
}

pub mod body_writer {
    pub use walrus_body_writer::{Output, body_size, emit_instructions};
}
