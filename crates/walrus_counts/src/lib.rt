//! How many items of each kind a module has.
#![tactic(auto)]

mod counts;

pub use counts::count;
