//! Words of texts, and what they stand for: by these rows of tests are read and compared. They promise nothing, so that no proof of a test computes
//! what a text says.
#![tactic(auto)]

mod bytes;
mod numbers;
mod shown;
mod told;
mod words;

pub use bytes::{Bytes, are_bytes, bytes_of, push_bytes, text_of};
pub use numbers::{digit, integer, lower, number};
pub use shown::{are_shown, is_shown, written};
pub use told::Words;
pub use words::{cut, head, is_none, next, nth, place};
