//! Reading whole modules (Core Specification, binary format: modules).
#![tactic(auto)]

mod file;
mod parse;
mod whole;

pub use file::read_file;
pub use parse::{FromBuffer, Parse};
pub use whole::parse_into;

// Passed on to crates above, which then list this one alone.
pub mod module {
    pub use walrus_named_bodies::item_names::module::Module;
}
