//! The values that sections are made of are written: types, constant expressions, limits; names by their numbers.
#![tactic(auto)]

// What was written stays, or the caller hands the refusal on.
macro_rules! put {
    ($call:expr) => {
        match $call {
            Ok(()) => {}
            Err(error) => return Err(error),
        }
    };
}

mod exprs;
mod limits;
mod types;

pub use exprs::write_expr;
pub use limits::{write_limits, write_optional};
pub use types::{
    write_abstract, write_heap, write_index, write_own_heap, write_reference, write_shared,
    write_value,
};
