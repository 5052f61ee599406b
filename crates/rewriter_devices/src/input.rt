// Reading all of an input.
ghost use Rattle.std.specs.Prelude.{◌≡◌, ◌≤◌, ◌<◌, ◌+◌, ◌^◌, ℕ, List, true, IfOk, IsErrOf, ◌↔◌, length};
ghost use Rattle.std.specs.Io.KnownBytes.{Consumes};
ghost use Rattle.rewriter_devices.specs.Input.{IsInput};

use crate::Source;
use std::alloc::{AllocError, Global};

/// The most bytes that an input may have.
pub const MAX_INPUT_LEN: usize = 1 << 30;

const READ_LEN: usize = 1 << 16;

/// Why an input wasn't read.
#[derive(Clone, Copy, PartialEq, Eq, Debug)]
pub enum ReadFault {
    Memory,
    Reader,
}

/// Reads to the end, or until more than `MAX_INPUT_LEN` bytes came. Memory grows with what was read.
pub fn read_all<R: Source>(alloc: Global, reader: &mut R) -> Result<Vec<u8>, ReadFault>
    ensures input { IfOk result (λ bytes. IsInput (R.left reader.old) (R.left reader.new) bytes.items) }
    ensures fails { IsErrOf result ReadFault.Reader ↔ (R.failed reader.new ≡ true) }
    ensures stays_failed { R.failed reader.old ≡ true → IsErrOf result ReadFault.Reader }
    ensures so_far { (bytes : List ℕ) × (length bytes ≤ 2 ^ 30 + 1) × Consumes (R.left reader.old) (R.left reader.new) bytes }
    ensures counted { R.reads reader.new ≤ R.reads reader.old + (2 ^ 30 + 2) }
{
    let mut bytes = Vec::new(alloc);
    let mut buffer = [0; READ_LEN];
    while bytes.len() <= MAX_INPUT_LEN {
        let room = (MAX_INPUT_LEN + 1 - bytes.len()).min(READ_LEN);
        let count = match reader.read(&mut buffer[..room]) {
            Ok(count) => count,
            Err(_) => return Err(ReadFault::Reader),
        };
        if count == 0 {
            break;
        }
        if bytes.extend_from_slice(&buffer[..count]).is_err() {
            return Err(ReadFault::Memory);
        }
    }
    Ok(bytes)
}
