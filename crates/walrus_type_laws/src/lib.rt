//! Laws of tables of types: what is parsed and emitted, once and again, also where a table is edited, and in which order.
#![tactic(auto)]

pub mod edited;
pub mod parsed;
pub mod swapped;
