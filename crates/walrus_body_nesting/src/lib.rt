//! Open sequences of a body that is read, and the tree that they grow into.
#![tactic(auto)]

mod frames;

pub use frames::{Opener, Reach};
