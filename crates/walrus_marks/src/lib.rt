//! Marks of items, and what is reached from marked items.
#![tactic(auto)]

mod claims;
mod marks;
mod sweep;
mod visit;

pub use claims::Claims;
pub use marks::Marks;
pub use sweep::{Names, reach};
