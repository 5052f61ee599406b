//! Function types of a table by id, and tables that grow: what was found there is found again.
#![tactic(auto)]

mod function_types;
pub mod laws;

pub use function_types::function_at;
