//! The numbers of a module's items, and what is known of its bodies before they are written: which functions have to be declared, and in
//! which order functions stand.
#![tactic(auto)]

mod declared;
mod facts;
mod give;
pub mod laws;
mod numbers;
mod order;
mod turns;

pub use declared::undeclared;
pub use facts::{BodyFacts, facts_of};
pub use numbers::number;
pub use order::{function_order, names_data};
