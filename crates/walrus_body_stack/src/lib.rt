//! The open sequences of a body that is read: how operators change them.
#![tactic(auto)]

mod flow;
mod frame;
mod handlers;
mod nest;
mod pile;
mod stack;
mod turns;

pub use flow::cuts;
pub use stack::Stack;

// Passed on to crates above, which then list this one alone.
pub mod body_nesting {
    pub use walrus_body_nesting::Opener;
}
