//! Which sequences of a body are handlers of a legacy `try`: laws as functions with nothing to do.
#![tactic(auto)]

mod handler;
pub mod laws;

pub use handler::Handler;

// Passed on to crates above, which then list this one alone.
pub mod tree {
    pub use walrus_tree::laws;
}
