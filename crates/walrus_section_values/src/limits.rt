//! Limits of tables and memories (Core Specification, binary format: limits, memory types, table types).

ghost use Rattle.std.specs.Prelude.{◌≡◌};
ghost use Rattle.wasm_grammar.specs.wasm_formats.Parts.{optional};
ghost use Rattle.wasm_grammar.specs.Values.{size, limits, table_limits, memory_limits, in_order, has_maximum, is_shared, is_wide, has_page_size};
ghost use Rattle.wasm_reader.specs.Reading.{plain};
ghost use Rattle.walrus_section_reader.specs.Parses.{ParsesExactly};
ghost use Rattle.wasm_grammar.specs.wasm_formats.declared.fault.Limited.TheVariants as limited;
ghost use Rattle.wasm_grammar.specs.wasm_formats.Stops.{Limit};
ghost use Rattle.wasm_grammar.specs.wasm_formats.Joined.{after};
ghost use Rattle.wasm_grammar.specs.wasm_formats.Wholes.{u32};
ghost use Rattle.wasm_grammar.specs.Values.{must};
ghost use Rattle.walrus_section_values.specs.Limits.{limits_of, memory_type_of};

use crate::values::{read_below, read_u32};
use walrus_section_reader::{Fault, FaultKind, Form, Limited, Result};
use wasm_reader::BinaryReader;

/// Limits as they stand.
#[derive(Clone, Copy, Debug, PartialEq, Eq)]
pub struct Limits {
    /// Whether there is a maximum (bit 0), they are shared (1), the numbers have 64 bits (2), a page size follows (3).
    pub flags: u8,
    /// The least size.
    pub minimum: u64,
    /// The greatest size, if there is one.
    pub maximum: Option<u64>,
}

impl Limits {
    /// Whether there is a maximum.
    pub fn has_maximum(self) -> bool
        ensures { result ≡ has_maximum self.flags }
    {
        self.flags % 2 == 1
    }

    /// Whether threads share what they limit.
    pub fn is_shared(self) -> bool
        ensures { result ≡ is_shared self.flags }
    {
        self.flags / 2 % 2 == 1
    }

    /// Whether addresses have 64 bits.
    pub fn is_wide(self) -> bool
        ensures { result ≡ is_wide self.flags }
    {
        self.flags / 4 % 2 == 1
    }

    /// Whether a page size follows.
    pub fn has_page_size(self) -> bool
        ensures { result ≡ has_page_size self.flags }
    {
        self.flags / 8 % 2 == 1
    }

    // Whether the minimum is at most the maximum.
    fn is_ordered(self) -> bool
        ensures { result ≡ in_order self.minimum self.maximum }
    {
        match self.maximum {
            Some(maximum) => self.minimum <= maximum,
            None => true,
        }
    }
}

// A size, of 64 bits or of 32.
fn read_size(flags: u8, reader: &mut BinaryReader<'_>) -> Result<u64>
    ensures { ParsesExactly (size flags).parse plain reader.old reader.new result }
{
    if flags / 4 % 2 == 1 {
        Ok(reader.read_var_u64()?)
    } else {
        Ok(u64::from(reader.read_var_u32()?))
    }
}

// The greatest size, where the flags say that there is one.
fn read_maximum(flags: u8, reader: &mut BinaryReader<'_>) -> Result<Option<u64>>
    ensures { ParsesExactly (optional (has_maximum flags) (size flags)).parse plain reader.old reader.new result }
{
    if flags % 2 == 1 {
        Ok(Some(read_size(flags, reader)?))
    } else {
        Ok(None)
    }
}

/// Limits whose flags are below a bound; their numbers aren't compared.
pub fn read_limits(bound: u8, reader: &mut BinaryReader<'_>) -> Result<Limits>
    ensures { ParsesExactly (limits bound).parse limits_of reader.old reader.new result }
{
    let flags = read_below(bound, reader)?;
    let minimum = read_size(flags, reader)?;
    let maximum = read_maximum(flags, reader)?;
    Ok(Limits {
        flags,
        minimum,
        maximum,
    })
}

/// The limits of a table. Shared ones are `Unsupported`, a minimum past the maximum is `Bounds`, at the first byte.
pub fn read_table_limits(reader: &mut BinaryReader<'_>) -> Result<Limits>
    ensures { ParsesExactly table_limits.parse limits_of reader.old reader.new result }
{
    let offset = reader.original_position();
    let limits = read_limits(8, reader)?;
    if limits.is_shared() {
        let kind = FaultKind::Unsupported(Form::SharedTable);
        return Err(Fault::new(kind, offset));
    }
    if !limits.is_ordered() {
        return Err(Fault::new(FaultKind::Bounds, offset));
    }
    Ok(limits)
}

/// The type of a memory: its limits, and the logarithm of its page size where one is given.
#[derive(Clone, Copy, Debug, PartialEq, Eq)]
pub struct MemoryType {
    /// The limits, in pages.
    pub limits: Limits,
    /// The logarithm of the page size, 0 or 16.
    pub page_size_log2: Option<u32>,
}

// The logarithm of a page size, where the flags say that there is one.
fn read_page_size(flags: u8, reader: &mut BinaryReader<'_>) -> Result<Option<u32>>
    ensures { ParsesExactly (optional (has_page_size flags) u32).parse plain reader.old reader.new result }
{
    if flags / 8 % 2 == 1 {
        Ok(Some(read_u32(reader)?))
    } else {
        Ok(None)
    }
}

/// The limits of a memory, and its page size, as they stand: nothing is compared.
pub fn read_memory_numbers(reader: &mut BinaryReader<'_>) -> Result<MemoryType>
    ensures { ParsesExactly (after (limits 16) (λ l. optional (has_page_size l.0) u32)).parse memory_type_of reader.old reader.new result }
{
    let limits = read_limits(16, reader)?;
    let page_size_log2 = read_page_size(limits.flags, reader)?;
    Ok(MemoryType {
        limits,
        page_size_log2,
    })
}

/// The type of a memory. A minimum past the maximum, and shared memories without one, are `Bounds` at the first byte; where there is no
/// room for it, that is `Limit` there; another page size than 1 and 65,536 is `Bounds` at its own first byte.
pub fn read_memory_limits(has_room: bool, reader: &mut BinaryReader<'_>) -> Result<MemoryType>
    ensures { ParsesExactly (memory_limits (must has_room (Limit limited.Memories))).parse memory_type_of reader.old reader.new result }
{
    let offset = reader.original_position();
    let limits = read_limits(16, reader)?;
    let place = reader.original_position();
    let page_size_log2 = read_page_size(limits.flags, reader)?;
    if !limits.is_ordered() || limits.is_shared() && limits.maximum.is_none() {
        return Err(Fault::new(FaultKind::Bounds, offset));
    }
    if !has_room {
        let kind = FaultKind::Limit(Limited::Memories);
        return Err(Fault::new(kind, offset));
    }
    if let Some(log) = page_size_log2 {
        if log != 0 && log != 16 {
            return Err(Fault::new(FaultKind::Bounds, place));
        }
    }
    Ok(MemoryType {
        limits,
        page_size_log2,
    })
}
