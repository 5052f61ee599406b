//! Bytes, numbers, names.

ghost use Rattle.std.specs.Prelude.{◌≡◌, ◌<◌, ◌≤◌, ◌-◌, [], ◌∷◌, ◌++◌, length, take, drop};
ghost use Rattle.wasm_operators.specs.Bytes.{code_bytes, little_bytes, signed_bytes, unsigned_bytes};
ghost use Rattle.wasm_formats.specs.declared.fault.Limited.TheVariants.{String};
ghost use Rattle.walrus_emit_parts.specs.Due.{Writes, limited, number, or_memory, text, written};

use std::alloc::AllocError;
use walrus_errors::{Limited, ModuleError, Result};
use walrus_operators as leaf;
use walrus_operators::operator_table::OpCode;

// The refusal of a growth is want of memory.
fn or_memory(answer: Result<(), AllocError>) -> Result<()>
    ensures { result ≡ or_memory answer }
{
    match answer {
        Ok(()) => Ok(()),
        Err(_) => Err(ModuleError::Memory),
    }
}

/// A byte.
///
/// # Errors
///
/// Want of memory. What was there stands at the front, here and below.
#[tactic(auto, using(crate::proofs::Lemmas::appended))]
pub fn write_byte(out: &mut Vec<u8>, byte: u8) -> Result<()>
    ensures { Writes (written (byte ∷ [])) out.old.items out.new.items result }
{
    or_memory(leaf::write_byte(out, byte))
}

/// Bytes as they are.
///
/// # Errors
///
/// Want of memory.
#[tactic(auto, using(crate::proofs::Lemmas::appended))]
pub fn write_bytes(out: &mut Vec<u8>, bytes: &[u8]) -> Result<()>
    ensures { Writes (written bytes.now) out.old.items out.new.items result }
{
    or_memory(wasm_operators::write_bytes(out, bytes))
}

/// A number.
///
/// # Errors
///
/// Want of memory.
#[tactic(auto, using(crate::proofs::Lemmas::appended))]
pub fn write_number(out: &mut Vec<u8>, n: u64) -> Result<()>
    ensures { Writes (number n) out.old.items out.new.items result }
{
    or_memory(leaf::write_unsigned(out, n))
}

/// A signed number.
///
/// # Errors
///
/// Want of memory.
#[tactic(auto, using(crate::proofs::Lemmas::appended))]
pub fn write_signed(out: &mut Vec<u8>, n: i64) -> Result<()>
    ensures { Writes (written (signed_bytes n)) out.old.items out.new.items result }
{
    or_memory(leaf::write_signed(out, n))
}

/// The bits of a float of 32 bits.
///
/// # Errors
///
/// Want of memory.
#[tactic(auto, using(crate::proofs::Lemmas::appended))]
pub fn write_bits32(out: &mut Vec<u8>, bits: u32) -> Result<()>
    ensures { Writes (written (little_bytes 4 bits)) out.old.items out.new.items result }
{
    or_memory(leaf::write_bits32(out, bits))
}

/// The bits of a float of 64 bits.
///
/// # Errors
///
/// Want of memory.
#[tactic(auto, using(crate::proofs::Lemmas::appended))]
pub fn write_bits64(out: &mut Vec<u8>, bits: u64) -> Result<()>
    ensures { Writes (written (little_bytes 8 bits)) out.old.items out.new.items result }
{
    or_memory(leaf::write_bits64(out, bits))
}

/// The code of an operator.
///
/// # Errors
///
/// Want of memory.
#[tactic(auto, using(crate::proofs::Lemmas::appended))]
pub fn write_code(out: &mut Vec<u8>, code: OpCode) -> Result<()>
    ensures { Writes (written (code_bytes code)) out.old.items out.new.items result }
{
    or_memory(leaf::write_code(out, code))
}

/// A size, and so many bytes.
///
/// # Errors
///
/// Want of memory.
#[tactic(auto, using(crate::proofs::Lemmas::writes_on, crate::proofs::Lemmas::refused_front))]
pub fn write_sized_bytes(out: &mut Vec<u8>, bytes: &[u8]) -> Result<()>
    ensures { Writes (text bytes.now) out.old.items out.new.items result }
{
    put!(write_number(out, bytes.len() as u64));
    write_bytes(out, bytes)
}

/// A text of any length.
///
/// # Errors
///
/// Want of memory.
pub fn write_text(out: &mut Vec<u8>, name: &str) -> Result<()>
    ensures { Writes (text name.now) out.old.items out.new.items result }
{
    write_sized_bytes(out, name.as_bytes())
}

// The most bytes of a name that a reader takes.
const MAX_NAME: usize = 100_000;

/// A name, of as many bytes as a reader takes.
///
/// # Errors
///
/// `OutputLimit` of strings where it has more; want of memory.
#[tactic(auto, using(crate::proofs::Lemmas::within))]
pub fn write_name(out: &mut Vec<u8>, name: &str) -> Result<()>
    ensures { Writes (limited 100000 (length name.now) String (text name.now)) out.old.items out.new.items result }
{
    if name.len() > MAX_NAME {
        let of = Limited::String;
        return Err(ModuleError::OutputLimit { of });
    }
    write_text(out, name)
}
