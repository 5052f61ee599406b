//! What programs share: their words, the files that these name, and what is said where something fails.
#![tactic(auto)]

mod failure;
mod input;
mod new_file;
mod output;
mod target;
mod words;

pub use failure::{Failure, finish};
pub use input::{MAX_INPUT_LEN, read_all, read_input};
pub use new_file::NewFile;
pub use output::write_output;
pub use target::{FileId, Place, Target, input_id, locate};
pub use words::{read_file, words_of, write_file};
