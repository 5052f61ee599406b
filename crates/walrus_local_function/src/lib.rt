//! Functions with a body.
#![tactic(auto)]

mod emission;
mod local_function;
mod parse;

pub use local_function::LocalFunction;
