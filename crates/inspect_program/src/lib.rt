//! The program `walrus_inspect`: its words, the file that they name, what it says, and the status with which it ends: 0
//! where it is done or was asked for help or its version, 1 where the input is refused, 2 where the words are wrong, and
//! 3 where the file can't be read or the lines can't be written. How a module is counted is up to its caller.
#![tactic(auto)]

mod failure;
mod program;
mod words;

pub use failure::Failure;
pub use program::{Inspector, run_words, status, text_of};
pub use program_parts::{MAX_INPUT_LEN, read_all, read_input};
pub use words::{Job, job_of, words_of};

// Passed on to crates above, which then list this one alone.
pub mod config {
    pub use walrus_config::ModuleConfig;
}

pub mod errors {
    pub use walrus_errors::{ModuleError, Result};
}

pub mod lines {
    pub use inspect_lines::Counts;
}
