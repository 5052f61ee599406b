//! Subtypes, recursion groups and type sections of WebAssembly, read from the binary format (Core Specification, types).
#![tactic(auto)]

mod group;
mod into_types;
pub mod laws;
mod read;
mod remap;
mod section;
mod subtype;

pub use group::{RecGroup, Types};
pub use into_types::{IntoTypes, IntoTypesAndOffsets};
pub use section::{FuncTypes, TypeSectionReader};
pub use subtype::SubType;
