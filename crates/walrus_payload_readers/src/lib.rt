//! What is read of the payloads of the custom sections `name` and `producers` (Core Specification, appendix Custom Sections: name
//! section; WebAssembly tool conventions): all that stands before the first fault, which never refuses a module.
#![tactic(auto)]

mod entries;
mod leaves;
mod names;
mod producers;

pub use entries::{Bearer, Bearers, Given};
pub use names::read_names;
pub use producers::read_producers;
