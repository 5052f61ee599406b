//! The open frames of a body that is read.
#![tactic(auto)]

mod context;
mod frame;

pub use context::ValidationContext;
pub use frame::{BlockKind, ControlFrame, IfElseState};
