//! The custom sections `name` and `producers` are written (Core Specification, appendix Custom Sections: name section; WebAssembly tool
//! conventions), each behind what there is: the shortest spelling, and nothing where there is nothing to tell.
#![tactic(auto)]

mod entries;
mod leaves;
mod names;
mod producers;

pub use entries::{FunctionNames, NameEntry};
pub use names::{Names, write_names};
pub use producers::write_producers;
