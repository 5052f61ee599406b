//! Why items of a module are kept: the roots, each with the reason, and what an item refers to, one step at a time.
#![tactic(auto)]

mod bodies;
mod items;
mod laws;
mod names;
mod picks;
mod reason;
mod rooted;
mod segments;
mod told;
mod types;

pub use items::references;
pub use laws::roots_are_listed;
pub use reason::Reason;
pub use rooted::roots;
