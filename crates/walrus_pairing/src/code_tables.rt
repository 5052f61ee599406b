//! Numeric and vector operators without immediates but a lane by their codes, and codes of those of two and three operands (Core
//! Specification, binary format: numeric instructions, vector instructions; the proposal on wide arithmetic).

mod access;
mod binary;
mod code;
mod numeric;
mod table;
mod ternary;
mod unary;
mod written;

pub(crate) use access::{cmpxchg_of, load_of, rmw_of, simd_of, store_of};
pub(crate) use binary::binary_of;
pub use binary::{code_of_binary, lane_of_binary};
pub use code::{byte, object};
pub(crate) use numeric::{Numeric, numeric_of};
pub(crate) use ternary::code_of_ternary;
pub(crate) use unary::unary_of;
pub use unary::{code_of_unary, lane_of_unary};
pub use written::code_of_store;
pub(crate) use written::{code_of_simd, lane_of_simd};
