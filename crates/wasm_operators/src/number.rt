//! Numbers are written (Core Specification, binary format, values: integers).

ghost use Rattle.std.specs.Prelude.{◌≡◌, ◌<◌, ◌^◌, ◌-◌, [], ◌∷◌, if◌then◌else◌};
ghost use Rattle.wasm_operators.specs.Bytes.{little_bytes, signed_bytes, unsigned_bytes};
ghost use Rattle.wasm_operators.specs.Appended.{Appends};
ghost use Rattle.wasm_operators.specs.Signs.{signed_of};

use std::alloc::AllocError;

/// Puts a byte behind the bytes.
///
/// # Errors
///
/// Want of memory. What was there stands at the front, here and below.
#[inline(always)]
#[tactic(auto, using(crate::proofs::Keeps::keeps_all))]
pub fn write_byte(out: &mut Vec<u8>, byte: u8) -> Result<(), AllocError>
    ensures { Appends (byte ∷ []) out.old.items out.new.items result }
{
    out.push(byte)?;
    Ok(())
}

/// Puts these bytes behind the bytes.
///
/// # Errors
///
/// Want of memory.
#[inline(always)]
#[tactic(auto, using(crate::proofs::Keeps::keeps_all))]
pub fn write_bytes(out: &mut Vec<u8>, bytes: &[u8]) -> Result<(), AllocError>
    ensures { Appends bytes.now out.old.items out.new.items result }
{
    out.extend_from_slice(bytes)?;
    Ok(())
}

/// Puts an unsigned number behind the bytes, in its shortest spelling.
///
/// # Errors
///
/// Want of memory.
#[inline]
#[tactic(auto, using(crate::proofs::Keeps::keeps_on))]
pub fn write_unsigned(out: &mut Vec<u8>, n: u64) -> Result<(), AllocError>
    ensures { Appends (unsigned_bytes n) out.old.items out.new.items result }
{
    let mut rest = n;
    while rest >= 0x80 {
        write_byte(out, (rest % 0x80) as u8 + 0x80)?;
        rest /= 0x80;
    }
    write_byte(out, rest as u8)
}

// A number's sign, and what it or its complement is.
#[inline]
fn split(n: i64) -> (bool, u64)
    ensures number { n ≡ signed_of result.0 result.1 }
    ensures fits { result.1 < 2 ^ 63 }
{
    if n < 0 {
        (true, (-1 - n) as u64)
    } else {
        (false, n as u64)
    }
}

// Seven bits, or their complement.
#[inline]
fn group(negative: bool, low: u8) -> u8
    requires { low < 128 }
    ensures { result ≡ (if negative then 127 - low else low) }
{
    if negative { 0x7f - low } else { low }
}

/// Puts a signed number behind the bytes, in its shortest spelling.
///
/// # Errors
///
/// Want of memory.
#[inline]
pub fn write_signed(out: &mut Vec<u8>, n: i64) -> Result<(), AllocError>
    ensures { Appends (signed_bytes n) out.old.items out.new.items result }
{
    let (negative, mut rest) = split(n);
    while rest >= 0x40 {
        write_byte(out, group(negative, (rest % 0x80) as u8) + 0x80)?;
        rest /= 0x80;
    }
    write_byte(out, group(negative, rest as u8))
}

/// Puts the bits of a float of 32 bits behind the bytes, the lowest first.
///
/// # Errors
///
/// Want of memory.
#[tactic(auto, using(crate::proofs::Digits::four_bytes))]
pub fn write_bits32(out: &mut Vec<u8>, bits: u32) -> Result<(), AllocError>
    ensures { Appends (little_bytes 4 bits) out.old.items out.new.items result }
{
    write_bytes(out, &bits.to_le_bytes())
}

/// Puts the bits of a float of 64 bits behind the bytes, the lowest first.
///
/// # Errors
///
/// Want of memory.
#[tactic(auto, using(crate::proofs::Digits::eight_bytes))]
pub fn write_bits64(out: &mut Vec<u8>, bits: u64) -> Result<(), AllocError>
    ensures { Appends (little_bytes 8 bits) out.old.items out.new.items result }
{
    write_bytes(out, &bits.to_le_bytes())
}
