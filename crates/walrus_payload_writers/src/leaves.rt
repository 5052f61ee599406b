//! Numbers, sizes, names and sections.

ghost use Rattle.std.specs.Prelude.{◌≡◌, ◌++◌, length, string_bytes};
ghost use Rattle.wasm_reader.specs.Shortest.{u32_bytes};
ghost use Rattle.wasm_name_payloads.specs.Written.{name_bytes, part_bytes};
ghost use Rattle.walrus_payload_writers.specs.Writes.{Writes, SizeWritten, custom_bytes};

use walrus_errors::{ModuleError, Result};
use walrus_operators::write_unsigned;
use wasm_formats::Limited;

// The most bytes that a file may have.
const MOST_BYTES: usize = 1 << 30;

/// A number.
#[tactic(auto, using(crate::proofs::Numbers::u32_is, crate::proofs::Lemmas::refused_memory))]
pub fn write_number(out: &mut Vec<u8>, number: u32) -> Result<()>
    ensures { Writes (u32_bytes number) out.old.items out.new.items result }
{
    write_unsigned(out, u64::from(number))?;
    Ok(())
}

/// A size or a count: more than a file may have is `OutputLimit`.
#[tactic(auto, using(crate::proofs::Numbers::u32_is, crate::proofs::Lemmas::keeps_same))]
pub fn write_size(out: &mut Vec<u8>, size: usize) -> Result<()>
    ensures { SizeWritten size out.old.items out.new.items result }
{
    if size > MOST_BYTES {
        let of = Limited::File;
        return Err(ModuleError::OutputLimit { of });
    }
    write_unsigned(out, size as u64)?;
    Ok(())
}

/// Bytes as they are.
#[tactic(auto, using(crate::proofs::Lemmas::refused_memory, crate::proofs::Lemmas::keeps_same))]
pub fn write_bytes(out: &mut Vec<u8>, bytes: &[u8]) -> Result<()>
    ensures { Writes bytes.now out.old.items out.new.items result }
{
    out.extend_from_slice(bytes)?;
    Ok(())
}

/// A size, and so many bytes.
#[tactic(auto, using(crate::proofs::Lemmas::writes_on, crate::proofs::Lemmas::size_refused))]
pub fn write_sized(out: &mut Vec<u8>, bytes: &[u8]) -> Result<()>
    ensures { Writes (u32_bytes (length bytes.now) ++ bytes.now) out.old.items out.new.items result }
{
    write_size(out, bytes.len())?;
    write_bytes(out, bytes)
}

/// A name.
pub fn write_name(out: &mut Vec<u8>, name: &str) -> Result<()>
    ensures { Writes (name_bytes name.now) out.old.items out.new.items result }
{
    write_sized(out, name.as_bytes())
}

/// A section or subsection: its id, its size and its contents.
#[tactic(auto, using(crate::proofs::Lemmas::writes_on, crate::proofs::Lemmas::refused_memory, crate::proofs::Lemmas::keeps_same))]
pub fn write_part(out: &mut Vec<u8>, id: u8, contents: &[u8]) -> Result<()>
    ensures { Writes (part_bytes id contents.now) out.old.items out.new.items result }
{
    out.push(id)?;
    write_sized(out, contents)
}

/// A custom section (Core Specification, binary format: custom section).
pub fn write_custom(out: &mut Vec<u8>, name: &str, payload: &[u8]) -> Result<()>
    ensures { Writes (custom_bytes name.now payload.now) out.old.items out.new.items result }
{
    let mut contents = Vec::new(*out.allocator());
    write_name(&mut contents, name)?;
    write_bytes(&mut contents, payload)?;
    write_part(out, 0, contents.as_slice())
}
