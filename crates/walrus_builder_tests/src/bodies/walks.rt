//! The visitor of the tests, and what the walks tell it.

pub mod log;
mod log_mut;
mod renamer;
pub mod told;
