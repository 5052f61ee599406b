//! What is written.

use crate::new_file::NewFile;
use crate::target::{Place, Target, locate};
use std::io::Write;
use std::rt::Files;
use std::{fs, io};

// What new files are called, in front of a number.
const NEW_FILE: &str = ".new";

/// Writes the file that a word names, `-` for standard output. A file that is there is replaced once all bytes stand in a new one beside
/// it, so that it is never left half written; a pipe or a device is written directly.
///
/// # Errors
///
/// What the system said. Want of memory.
pub fn write_output<R: Files + Print + AllocGlobal>(
    rt: &R,
    word: &str,
    bytes: &[u8],
) -> io::Result<()> {
    let (_, target) = locate(rt, word)?;
    match &target {
        Target::Standard => rt.write_all(bytes),
        Target::Direct(path) => {
            let mut file = fs::create(rt, path.as_str())?;
            file.write_all(bytes)?;
            file.flush()
        }
        Target::Beside(place) => write_beside(rt, place, bytes),
    }
}

// Writes a new file, which takes the place once all bytes stand in it.
fn write_beside<R: Files + AllocGlobal>(rt: &R, place: &Place, bytes: &[u8]) -> io::Result<()> {
    let mut new = NewFile::create(rt, place, NEW_FILE)?;
    match new.file.write_all(bytes) {
        Ok(()) => new.take_name(rt, place),
        Err(e) => {
            new.remove(rt);
            Err(e)
        }
    }
}
