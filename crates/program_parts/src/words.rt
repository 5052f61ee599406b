//! The words of a program, and the files that they name.

use crate::failure::Failure;
use crate::input::read_input;
use crate::output::write_output;
use std::rt::{Env, Files};
use std::{env, io};

/// The words behind the program's name.
///
/// # Errors
///
/// That a word is no text. Want of memory.
pub fn words_of<R: Env + AllocGlobal>(rt: &R) -> Result<Vec<String>, Failure> {
    let mut all = env::args(rt)?;
    let _ = all.next();
    Ok(all.collect(rt.alloc())?)
}

// The failure of a file.
fn of_file<R: AllocGlobal>(rt: &R, word: &str, cause: io::Error) -> Failure {
    match String::from_str(rt.alloc(), word) {
        Ok(name) => Failure::File(name, cause),
        Err(error) => Failure::from(error),
    }
}

/// The bytes of the file that a word names, `-` for standard input.
///
/// # Errors
///
/// The file and what the system said. Want of memory.
pub fn read_file<R: Files + Input + AllocGlobal>(rt: &R, word: &str) -> Result<Vec<u8>, Failure> {
    match read_input(rt, word) {
        Ok(bytes) => Ok(bytes),
        Err(cause) => Err(of_file(rt, word, cause)),
    }
}

/// Writes the file that a word names, `-` for standard output, as [`write_output`] does.
///
/// # Errors
///
/// The file and what the system said. Want of memory.
pub fn write_file<R: Files + Print + AllocGlobal>(
    rt: &R,
    word: &str,
    bytes: &[u8],
) -> Result<(), Failure> {
    match write_output(rt, word, bytes) {
        Ok(()) => Ok(()),
        Err(cause) => Err(of_file(rt, word, cause)),
    }
}
