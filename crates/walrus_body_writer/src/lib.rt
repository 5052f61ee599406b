//! Bodies are written: their instructions as operators, in the shortest spelling.
#![tactic(auto)]

mod emit;
mod frequent;
mod numbers;
mod operators;
mod output;
mod refusal;

pub use emit::{emit_instructions, write_instructions};
pub use output::Output;
pub use refusal::fault_of;
pub use walrus_body_text::{Closer, TextVisitor, body_size, visit_once, visit_text};

// Passed on to crates above, which then list this one alone.
pub mod body_env {
    pub use walrus_body_text::body_env::{BodyEnv, BodyError, Validator};
}

pub mod builder {
    pub use walrus_body_text::tree::builder::FunctionBuilder;
}

pub mod pairing {
    pub use walrus_pairing::{PairError, write_value};
}
