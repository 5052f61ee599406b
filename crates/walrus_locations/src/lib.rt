//! The locations that bodies were read from, sent through a callback.
#![tactic(auto)]

mod bodies;
mod functions;
pub mod laws;

pub use functions::send_locations;
