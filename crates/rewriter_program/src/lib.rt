//! The program `wasm_rewriter`: its words, the files that they name, what it says, and the status with which it
//! ends: 0 where it is done or was asked for help or its version, 1 where the input is refused, 2 where the words are
//! wrong, and 3 where a file can't be opened, read or written.
#![tactic(auto)]

mod failure;
mod input;
mod output;
mod program;
mod words;

pub use failure::Failure;
pub use input::InputFile;
pub use output::OutputFile;
pub use program::{Targets, rewrite_files, run_words, status};
pub use program_parts::{FileId, Place, Target, locate};
pub use words::{Job, Mistake, job_of, mistake_of, words_of};
