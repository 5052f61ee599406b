//! The reader: a window of the input and a position in it.

ghost use Rattle.std.specs.Prelude.{◌≡◌, ◌+◌, ◌-◌, ◌<◌, ◌≤◌, ◌^◌, ◌==◌, min, length, IfOk, [], ◌∷◌, IsTrue, ◌↔◌, Result, MatchResult};
ghost use Rattle.std.specs.Fn.{FnOnceReturnsAtMut};
ghost use Rattle.wasm_reader.specs.declared.error.Error.{Error};
ghost use Rattle.wasm_reader.specs.Cursor.{Cursor, Forward, read_since, rest, end_of, IsInner, shrunk, with_features};
ghost use Rattle.wasm_reader.specs.Floats.{seen_bits32, seen_bits64};
ghost use Rattle.wasm_features.specs.Features.{features_of, all_names};
ghost use Rattle.wasm_reader.specs.Items.{WantsMemory};
ghost use Rattle.wasm_reader.specs.Text.{sized_bytes_at};
ghost use Rattle.wasm_reader.specs.Reading.{Reads, byte_at, next_at, bytes_at, u7_at, little_at, plain, seen_bytes, seen_window};

use crate::error::{Error, ErrorKind, Result};
use crate::floats::{Ieee32, Ieee64};
use std::marker::Model;
use std::ops::Range;
use wasm_features::WasmFeatures;

/// Reads a window of the input from its front on. Offsets count bytes from where the input began.
///
/// What a refused reading took is not told: the position then lies between the old one and the window's end.
#[derive(Drop)]
pub struct BinaryReader<'a> {
    pub(crate) buffer: &'a [u8],
    pub(crate) position: usize,
    original_offset: u64,
    features: WasmFeatures,
}

impl<'a> Model for BinaryReader<'a> {
    ghost use Rattle.std.specs.Prelude.{◌+◌, ◌≤◌, ◌<◌, ◌^◌, length};
    ghost use Rattle.wasm_reader.specs.Cursor.{Cursor};

    ghost Value = { Cursor };

    ghost view = { λ r. record { window = record { bytes = r.buffer.now; start = r.original_offset; features = r.features }; position = r.position } };

    ghost invariant = { λ r. (r.position ≤ length r.buffer.now) × (r.original_offset + length r.buffer.now < 2 ^ 64) };
}

impl<'a> BinaryReader<'a> {
    /// A reader at the front of `bytes`, whose first byte has this offset, with all features on.
    pub fn new(bytes: &'a [u8], original_offset: u64) -> BinaryReader<'a>
        requires { original_offset + length bytes.now < 2 ^ 64 }
        ensures bytes { result.window.bytes ≡ bytes.now }
        ensures start { result.window.start ≡ original_offset }
        ensures position { result.position ≡ 0 }
        ensures features { result.window.features ≡ features_of all_names }
    {
        BinaryReader::new_features(bytes, original_offset, WasmFeatures::all())
    }

    /// A reader at the front of `bytes`, whose first byte has this offset, with these features on.
    pub fn new_features(
        bytes: &'a [u8],
        original_offset: u64,
        features: WasmFeatures,
    ) -> BinaryReader<'a>
        requires { original_offset + length bytes.now < 2 ^ 64 }
        ensures bytes { result.window.bytes ≡ bytes.now }
        ensures start { result.window.start ≡ original_offset }
        ensures position { result.position ≡ 0 }
        ensures features { result.window.features ≡ features }
    {
        BinaryReader {
            buffer: bytes,
            position: 0,
            original_offset,
            features,
        }
    }

    /// The features that are on.
    #[inline]
    pub fn features(&self) -> WasmFeatures
        ensures { result ≡ self.now.window.features }
    {
        self.features
    }

    /// Sets the features that are on.
    pub fn set_features(&mut self, features: WasmFeatures)
        ensures { self.new ≡ with_features features self.old }
    {
        self.features = features;
    }

    /// The offsets of the window.
    pub fn range(&self) -> Range<u64>
        ensures start { result.start ≡ self.now.window.start }
        ensures end { result.end ≡ end_of self.now }
    {
        self.original_offset..self.original_offset + self.buffer.len() as u64
    }

    /// The offsets of the bytes that are left.
    pub fn remaining_range(&self) -> Range<u64>
        ensures start { result.start ≡ self.now.window.start + self.now.position }
        ensures end { result.end ≡ end_of self.now }
    {
        self.original_position()..self.original_offset + self.buffer.len() as u64
    }

    /// The offset of the next byte.
    #[inline]
    pub fn original_position(&self) -> u64
        ensures place { result ≡ self.now.window.start + self.now.position }
        ensures left { result + length (rest self.now) ≡ end_of self.now }
        ensures fits { end_of self.now < 2 ^ 64 }
    {
        self.original_offset + self.position as u64
    }

    /// Want of memory, where the reader stands.
    pub fn out_of_memory(&self) -> Error
        ensures wants { WantsMemory self.now result }
        ensures place { result.offset ≤ end_of self.now }
    {
        Error::new(ErrorKind::Memory, self.original_position())
    }

    /// How many bytes a window may have whose first byte has this offset.
    pub fn max_data_len(original_offset: u64) -> usize
        ensures { original_offset + result ≡ 2 ^ 64 - 1 }
    {
        (u64::MAX - original_offset) as usize
    }

    /// How many bytes of the window were read.
    #[inline]
    pub fn current_position(&self) -> usize
        ensures { result ≡ self.now.position }
    {
        self.position
    }

    /// How many bytes of the window are left.
    #[inline]
    pub fn bytes_remaining(&self) -> usize
        ensures { result ≡ length (rest self.now) }
    {
        self.buffer.len() - self.position
    }

    /// No byte is left.
    #[inline]
    pub fn eof(&self) -> bool
        ensures { result ≡ (length (rest self.now) == 0) }
    {
        self.position >= self.buffer.len()
    }

    /// All that is left is one byte, the `end` of an expression.
    pub fn is_end_then_eof(&self) -> bool
        ensures { IsTrue result ↔ (rest self.now ≡ 0x0b ∷ []) }
    {
        matches!(&self.buffer[self.position..], [0x0b])
    }

    /// A reader of the bytes that are left, at their place.
    pub fn shrink(&self) -> BinaryReader<'a>
        ensures { result ≡ shrunk self.now }
    {
        BinaryReader {
            buffer: &self.buffer[self.position..],
            position: 0,
            original_offset: self.original_position(),
            features: self.features,
        }
    }

    /// The next byte, which stays to be read. `EndOfFile` where there is none.
    #[inline]
    pub fn peek(&self) -> Result<u8>
        ensures { Reads next_at plain self.now self.now result }
    {
        let Some(&byte) = self.buffer.get(self.position) else {
            return Err(Error::new(ErrorKind::EndOfFile(1), self.original_position()));
        };
        Ok(byte)
    }

    /// One byte. `EndOfFile` where there is none.
    #[inline]
    pub fn read_u8(&mut self) -> Result<u8>
        ensures { Reads byte_at plain self.old self.new result }
    {
        let Some(&byte) = self.buffer.get(self.position) else {
            return Err(Error::new(ErrorKind::EndOfFile(1), self.original_position()));
        };
        self.position += 1;
        Ok(byte)
    }

    /// A byte below 128. A greater one is `BadByte` at its place.
    #[tactic(auto, unfolding(crate::specs::Reading::u7_at))]
    pub fn read_u7(&mut self) -> Result<u8>
        ensures { Reads u7_at plain self.old self.new result }
    {
        let offset = self.original_position();
        let byte = self.read_u8()?;
        if byte >= 0x80 {
            return Err(Error::new(ErrorKind::BadByte, offset));
        }
        Ok(byte)
    }

    /// A number of four bytes, the lowest first. `EndOfFile` where fewer are left.
    #[tactic(auto, unfolding(crate::specs::Reading::little_at))]
    pub fn read_u32(&mut self) -> Result<u32>
        ensures { Reads (little_at 4) plain self.old self.new result }
    {
        let bytes = self.read_bytes(4)?;
        Ok(u32::from_le_bytes([bytes[0], bytes[1], bytes[2], bytes[3]]))
    }

    /// A number of eight bytes, the lowest first. `EndOfFile` where fewer are left.
    #[tactic(auto, unfolding(crate::specs::Reading::little_at))]
    pub fn read_u64(&mut self) -> Result<u64>
        ensures { Reads (little_at 8) plain self.old self.new result }
    {
        let bytes = self.read_bytes(8)?;
        Ok(u64::from_le_bytes([
            bytes[0], bytes[1], bytes[2], bytes[3], bytes[4], bytes[5], bytes[6], bytes[7],
        ]))
    }

    /// The bits of an f32 (Core Specification, binary format, values: floating-point).
    pub fn read_f32(&mut self) -> Result<Ieee32>
        ensures { Reads (little_at 4) seen_bits32 self.old self.new result }
    {
        Ok(Ieee32(self.read_u32()?))
    }

    /// The bits of an f64 (Core Specification, binary format, values: floating-point).
    pub fn read_f64(&mut self) -> Result<Ieee64>
        ensures { Reads (little_at 8) seen_bits64 self.old self.new result }
    {
        Ok(Ieee64(self.read_u64()?))
    }

    /// The next `size` bytes, borrowed from the input. `EndOfFile`, with the number that is missing, where fewer are left.
    pub fn read_bytes(&mut self, size: usize) -> Result<&'a [u8]>
        ensures bytes { Reads (bytes_at size) seen_bytes self.old self.new result }
        ensures size { IfOk result (λ bytes. length bytes.now ≡ size) }
    {
        let left = self.bytes_remaining();
        if size > left {
            let kind = ErrorKind::EndOfFile(size - left);
            return Err(Error::new(kind, self.original_position()));
        }
        let start = self.position;
        self.position += size;
        Ok(&self.buffer[start..start + size])
    }

    /// Runs `read`, and gives a reader of the bytes that it read, at their place: of none where it went back.
    /// Refused where `read` is.
    pub fn skip<F: FnOnce(&mut BinaryReader<'a>) -> Result<()>>(
        &mut self,
        read: F,
    ) -> Result<BinaryReader<'a>>
        requires callable { F.IsAlwaysCallable read }
        ensures outcome { MatchResult result
            (λ inner. FnOnceReturnsAtMut F.FnOnce read self.old (Ok tt) self.new × (inner ≡ read_since (min self.old.position self.new.position) self.new))
            (λ e. FnOnceReturnsAtMut F.FnOnce read self.old (Err e) self.new) }
        ensures moves { ((old new : Cursor) (outcome : Result (Unit {0}) Error) → FnOnceReturnsAtMut F.FnOnce read old outcome new → Forward old new) → Forward self.old self.new }
    {
        let position = self.position;
        read(self)?;
        Ok(self.read_since(position.min(self.position)))
    }

    fn read_since(&self, position: usize) -> BinaryReader<'a>
        requires { position ≤ self.now.position }
        ensures { result ≡ read_since position self.now }
    {
        BinaryReader {
            buffer: &self.buffer[position..self.position],
            position: 0,
            original_offset: self.original_offset + position as u64,
            features: self.features,
        }
    }

    /// A u32, and a reader of that many bytes where they stand: its offsets are those of the input.
    /// Refused as the number and the run of bytes are.
    #[tactic(auto, unfolding(crate::specs::Text::sized_bytes_at))]
    pub fn read_reader(&mut self) -> Result<BinaryReader<'a>>
        ensures bytes { Reads sized_bytes_at seen_window self.old self.new result }
        ensures place { IfOk result (λ inner. IsInner self.new inner) }
    {
        let size = self.read_var_u32()? as usize;
        let original_offset = self.original_position();
        let buffer = self.read_bytes(size)?;
        Ok(BinaryReader {
            buffer,
            position: 0,
            original_offset,
            features: self.features,
        })
    }
}
