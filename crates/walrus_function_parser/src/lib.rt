//! Bodies of functions are read whole: their locals, and their operators as a tree of instructions in normal form (Core Specification,
//! binary format: code section).
#![tactic(auto)]

mod parse;

pub use parse::parse_function;

// Passed on to crates above, which then list this one alone.
pub mod builder {
    pub use walrus_body_parser::builder::FunctionBuilder;
}
