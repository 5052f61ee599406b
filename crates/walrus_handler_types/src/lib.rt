//! The types of handlers of a legacy `try`, in a body that was read beside types to which those of its handlers are still to be added.
#![tactic(auto)]

mod give;
pub mod laws;
mod lists;
mod order;

pub use give::give_types;
pub use walrus_handlers::{AnyHandler, Handler, handlers, handlers_if};

// Passed on to crates above, which then list this one alone.
pub mod tree {
    pub use walrus_handlers::tree::check_tree;
}
