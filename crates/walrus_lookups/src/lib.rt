//! What programs look up in a module: items by what users call them, what items are called, custom sections by name, and where code stands.
#![tactic(auto)]

mod code;
mod customs;
mod labels;
mod names;
mod places;

pub use code::code_section_start;
pub use customs::Retains;
pub use labels::Labels;
pub use names::{ByName, Finds};
pub use places::Places;
