//! What the custom sections of a file say of its module: the names of what is in it, by the maps from its indices to ids, and its
//! producers, with the entry of this tool (Core Specification, appendix Custom Sections: name section; WebAssembly tool conventions:
//! producers section).
#![tactic(auto)]

mod customs;
mod names;
mod numbered;
mod producers;

pub use customs::{names_in, producers_in};
pub use names::read_section_names;
pub use numbered::Numbered;
pub use producers::{producers_of, read_fields};
