//! What is read.
ghost use Rattle.std.specs.Prelude.{◌≡◌, ◌+◌, ◌^◌, IfOk, IfSome, take};

use std::alloc::Global;
use std::io::Read;
use std::rt::Files;
use std::{fs, io};

/// The most bytes that a module may have.
pub const MAX_INPUT_LEN: u64 = 1 << 30;

/// The bytes of the file that a word names, `-` for standard input.
///
/// # Errors
///
/// What the system said. Want of memory.
pub fn read_input<R: Files + Input + AllocGlobal>(rt: &R, word: &str) -> io::Result<Vec<u8>> {
    if word == "-" {
        return read_all(rt.alloc(), rt.reader());
    }
    read_all(rt.alloc(), fs::open(rt, word)?)
}

/// All bytes that there are, or one more than a module may have. Memory grows with what is read, and room that isn't needed is given back.
///
/// # Errors
///
/// That of the reader. Want of memory.
pub fn read_all<R: Read + Drop>(alloc: Global, reader: R) -> io::Result<Vec<u8>>
    ensures { IfOk result (λ bytes. IfSome (R.remaining reader) (λ all. bytes.items ≡ take (2 ^ 30 + 1) all)) }
{
    let mut bytes = Vec::new(alloc);
    let mut limited = reader.take(MAX_INPUT_LEN + 1);
    limited.read_to_end(&mut bytes)?;
    bytes.shrink_to_fit();
    Ok(bytes)
}
