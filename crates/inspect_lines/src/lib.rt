//! How many items of each kind there are in a module, and the lines in which that is told.
#![tactic(auto)]

mod counts;
mod lines;

pub use counts::Counts;
pub use lines::lines_of;
