//! The ground of the readers of sections: why sections are refused and where, the window of a section's contents, and loops over
//! entries; with what a call answers, in words of the formats.
#![tactic(auto)]

mod entries;
mod fault;
mod section;
mod window;

pub use entries::{Entries, read_entries, read_vec};
pub use fault::{Fault, FaultKind, Result};
pub use section::{Many, read_section};
pub use wasm_formats::{Form, Limited, Space};
pub use window::{close_section, open_section};
