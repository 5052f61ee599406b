//! Single bytes among the immediates.

ghost use Rattle.wasm_composite_types.specs.wasm_reader.Reading.{Reads, plain};
ghost use Rattle.wasm_operators.specs.Readings.{below_at, zero_at};

use wasm_composite_types::reader::{BinaryReader, Error, ErrorKind, Result};

/// A byte below a bound. Another one is `BadByte` at its place.
#[inline]
#[tactic(auto, unfolding(crate::specs::Readings::below_at))]
pub fn read_below(reader: &mut BinaryReader<'_>, bound: u8) -> Result<u8>
    ensures { Reads (below_at bound) plain reader.old reader.new result }
{
    let offset = reader.original_position();
    let byte = got!(reader.read_u8());
    if byte >= bound {
        return Err(Error::new(ErrorKind::BadByte, offset));
    }
    Ok(byte)
}

/// A byte 00. Another one is `BadByte` at its place.
#[inline]
#[tactic(auto, unfolding(crate::specs::Readings::zero_at))]
pub fn read_zero(reader: &mut BinaryReader<'_>) -> Result<()>
    ensures { Reads zero_at plain reader.old reader.new result }
{
    let offset = reader.original_position();
    if got!(reader.read_u8()) != 0 {
        return Err(Error::new(ErrorKind::BadByte, offset));
    }
    Ok(())
}
