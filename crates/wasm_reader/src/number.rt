//! LEB128 numbers (Core Specification, binary format, values: integers).

ghost use Rattle.std.specs.Prelude.{◌+◌, ◌-◌, ◌*◌, ◌<◌, ◌≤◌, ◌^◌, true, pos, ◌+ℤ◌, ◌-ℤ◌, ◌*ℤ◌, ◌<ℤ◌, ◌≤ℤ◌, ◌≡◌, IfOk, IfSome, IfNone};
ghost use Rattle.wasm_reader.specs.Cursor.{TakesByte};
ghost use Rattle.wasm_reader.specs.Reading.{Reads, plain};
ghost use Rattle.wasm_reader.specs.Numbers.{unsigned, signed, unsigned_at, signed_at, s33_at, number_at};

use crate::error::{Error, ErrorKind, Result};
use crate::reader::BinaryReader;

// Seven bits above the low ones.
fn joined(low: u64, group: u8, shift: u32) -> u64
    requires within { shift < 64 }
    requires below { low < 2 ^ shift }
    requires fits { group < 2 ^ (64 - shift) }
    ensures { result ≡ low + 2 ^ shift * group }
{
    low | u64::from(group) << shift
}

// The unused bits of a last byte are zero where `left` bits are still wanted.
fn unsigned_fits(left: u32, byte: u8) -> bool
    requires { byte < 128 }
    ensures { result ≡ unsigned.fits left byte }
{
    left >= 7 || byte < 1 << left
}

// The unused bits of a last byte are copies of the sign where `left` bits are still wanted.
fn signed_fits(left: u32, byte: u8) -> bool
    requires last { byte < 128 }
    requires wanted { 0 < left }
    ensures { result ≡ signed.fits left byte }
{
    let magnitude = if byte < 0x40 { byte } else { 0x7f - byte };
    left >= 7 || magnitude < 1 << (left - 1)
}

// The low bits below a last byte. A negative number is the complement of what the complements of its bits spell.
fn signed_joined(low: u64, last: u8, shift: u32) -> i64
    requires within { shift < 64 }
    requires below { low < 2 ^ shift }
    requires last { last < 128 }
    requires fits { signed.fits (64 - shift) last ≡ true }
    ensures { result ≡ pos low +ℤ pos (2 ^ shift) *ℤ signed.value last }
{
    if last < 0x40 {
        joined(low, last, shift) as i64
    } else {
        -1 - joined((1 << shift) - 1 - low, 0x7f - last, shift) as i64
    }
}

// The number that a last byte stands for.
#[inline]
fn small_signed(byte: u8) -> i32
    requires { byte < 128 }
    ensures value { result ≡ signed.value byte }
    ensures least { pos 0 ≤ℤ (result +ℤ pos 64) }
    ensures most { result <ℤ pos 64 }
{
    if byte < 0x40 {
        i32::from(byte)
    } else {
        i32::from(byte) - 0x80
    }
}

impl<'a> BinaryReader<'a> {
    // Most numbers have one byte: it is read here, and a longer one by the loops below.
    #[inline]
    fn read_small(&mut self) -> Option<u8>
        ensures taken { IfSome result (λ byte. TakesByte byte self.old self.new) }
        ensures none { IfNone result (self.new ≡ self.old) }
        ensures small { IfSome result (λ byte. byte < 128) }
    {
        let byte = *self.buffer.get(self.position)?;
        if byte >= 0x80 {
            return None;
        }
        self.position += 1;
        Some(byte)
    }

    fn read_unsigned(&mut self, width: u32) -> Result<u64>
        requires some { 0 < width }
        requires wide { width ≤ 64 }
        ensures number { Reads (unsigned_at width) plain self.old self.new result }
        ensures range { IfOk result (λ n. n < 2 ^ width) }
    {
        let mut low = 0;
        let mut shift = 0;
        loop {
            let offset = self.original_position();
            let byte = self.read_u8()?;
            let left = width - shift;
            if byte < 0x80 {
                if !unsigned_fits(left, byte) {
                    return Err(Error::new(ErrorKind::TooLarge, offset));
                }
                return Ok(joined(low, byte, shift));
            }
            if left <= 7 {
                return Err(Error::new(ErrorKind::TooLong, offset));
            }
            low = joined(low, byte - 0x80, shift);
            shift += 7;
        }
    }

    // `wrong` is the fault of unused bits that do not copy the sign.
    fn read_signed(&mut self, width: u32, wrong: ErrorKind) -> Result<i64>
        requires some { 0 < width }
        requires wide { width ≤ 64 }
        ensures number { Reads (number_at signed wrong width) plain self.old self.new result }
        ensures least { IfOk result (λ n. pos 0 ≤ℤ (n +ℤ pos (2 ^ (width - 1)))) }
        ensures most { IfOk result (λ n. n <ℤ pos (2 ^ (width - 1))) }
    {
        let mut low = 0;
        let mut shift = 0;
        loop {
            let offset = self.original_position();
            let byte = self.read_u8()?;
            let left = width - shift;
            if byte < 0x80 {
                if !signed_fits(left, byte) {
                    return Err(Error::new(wrong, offset));
                }
                return Ok(signed_joined(low, byte, shift));
            }
            if left <= 7 {
                return Err(Error::new(ErrorKind::TooLong, offset));
            }
            low = joined(low, byte - 0x80, shift);
            shift += 7;
        }
    }

    /// A u32 of at most five bytes. `EndOfFile` where the bytes end, `TooLong` or `TooLarge` at the last byte allowed.
    #[inline]
    pub fn read_var_u32(&mut self) -> Result<u32>
        ensures { Reads (unsigned_at 32) plain self.old self.new result }
    {
        match self.read_small() {
            Some(byte) => Ok(u32::from(byte)),
            None => Ok(self.read_unsigned(32)? as u32),
        }
    }

    /// A u64 of at most ten bytes, refused as [`BinaryReader::read_var_u32`] is.
    #[inline]
    pub fn read_var_u64(&mut self) -> Result<u64>
        ensures { Reads (unsigned_at 64) plain self.old self.new result }
    {
        match self.read_small() {
            Some(byte) => Ok(u64::from(byte)),
            None => self.read_unsigned(64),
        }
    }

    /// An s32 of at most five bytes, refused as [`BinaryReader::read_var_u32`] is.
    #[inline(always)]
    #[tactic(auto, using(crate::proofs::Small::small_signed))]
    pub fn read_var_i32(&mut self) -> Result<i32>
        ensures { Reads (signed_at 32) plain self.old self.new result }
    {
        match self.read_small() {
            Some(byte) => Ok(small_signed(byte)),
            None => Ok(self.read_signed(32, ErrorKind::TooLarge)? as i32),
        }
    }

    /// An s33 of at most five bytes. `EndOfFile` where the bytes end, `TooLong` at the last byte allowed.
    #[inline]
    #[tactic(auto, using(crate::proofs::Small::small_signed))]
    pub fn read_var_s33(&mut self) -> Result<i64>
        ensures { Reads s33_at plain self.old self.new result }
    {
        match self.read_small() {
            Some(byte) => Ok(i64::from(small_signed(byte))),
            None => self.read_signed(33, ErrorKind::TooLong),
        }
    }

    /// An s64 of at most ten bytes, refused as [`BinaryReader::read_var_u32`] is.
    #[inline]
    #[tactic(auto, using(crate::proofs::Small::small_signed))]
    pub fn read_var_i64(&mut self) -> Result<i64>
        ensures { Reads (signed_at 64) plain self.old self.new result }
    {
        match self.read_small() {
            Some(byte) => Ok(i64::from(small_signed(byte))),
            None => self.read_signed(64, ErrorKind::TooLarge),
        }
    }
}
