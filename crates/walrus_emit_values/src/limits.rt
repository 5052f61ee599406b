//! Limits.

ghost use Rattle.walrus_emit_parts.specs.Due.{Writes};
ghost use Rattle.walrus_emit_due.specs.Values.{limits, optional};

use walrus_emit_parts::{write_byte, write_number};
use walrus_errors::Result;

/// A number that may be missing.
///
/// # Errors
///
/// Want of memory.
#[tactic(auto, using(walrus_emit_parts::proofs::Lemmas::nothing))]
pub fn write_optional(out: &mut Vec<u8>, number: Option<u64>) -> Result<()>
    ensures { Writes (optional number) out.old.items out.new.items result }
{
    match number {
        Some(n) => write_number(out, n),
        None => Ok(()),
    }
}

/// The flags, the minimum and the maximum.
///
/// # Errors
///
/// Want of memory.
#[tactic(auto, using(walrus_emit_parts::proofs::Lemmas::writes_on, walrus_emit_parts::proofs::Lemmas::refused_front, crate::proofs::Lemmas::byte_on))]
pub fn write_limits(out: &mut Vec<u8>, flags: u8, initial: u64, maximum: Option<u64>) -> Result<()>
    ensures { Writes (limits flags initial maximum) out.old.items out.new.items result }
{
    put!(write_byte(out, flags));
    put!(write_number(out, initial));
    write_optional(out, maximum)
}
