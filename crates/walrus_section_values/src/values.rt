//! Bytes, numbers, indices and names.

ghost use Rattle.std.specs.Prelude.{◌≡◌, true, false};
ghost use Rattle.wasm_reader.specs.Cursor.{TakesByte, rest};
ghost use Rattle.wasm_grammar.specs.wasm_formats.Led.{IsOther};
ghost use Rattle.wasm_reader.specs.declared.error.ErrorKind.TheVariants as kinds;
ghost use Rattle.wasm_reader.specs.Reading.{plain, seen_bytes};
ghost use Rattle.wasm_grammar.specs.wasm_formats.Stops.{Read};
ghost use Rattle.wasm_grammar.specs.wasm_formats.Bytes.{literal};
ghost use Rattle.wasm_grammar.specs.wasm_formats.Wholes.{u32};
ghost use Rattle.wasm_grammar.specs.Values.{byte_below, index, name};
ghost use Rattle.walrus_section_reader.specs.Parses.{ParsesExactly};

use walrus_section_reader::{Fault, FaultKind, Result, Space};
use wasm_reader::{BinaryReader, ErrorKind};

/// A u32.
pub fn read_u32(reader: &mut BinaryReader<'_>) -> Result<u32>
    ensures { ParsesExactly u32.parse plain reader.old reader.new result }
{
    Ok(reader.read_var_u32()?)
}

/// A name, borrowed from the input.
pub fn read_name<'a>(reader: &mut BinaryReader<'a>) -> Result<&'a str>
    ensures { ParsesExactly name.parse seen_bytes reader.old reader.new result }
{
    Ok(reader.read_string()?)
}

/// A byte below a bound. Others are `BadByte`.
pub fn read_below(bound: u8, reader: &mut BinaryReader<'_>) -> Result<u8>
    ensures { ParsesExactly (byte_below bound).parse plain reader.old reader.new result }
{
    let offset = reader.original_position();
    let byte = reader.read_u8()?;
    if byte >= bound {
        return Err(Fault::new(FaultKind::Read(ErrorKind::BadByte), offset));
    }
    Ok(byte)
}

/// The byte 00. Others are `BadByte`.
pub fn read_zero(reader: &mut BinaryReader<'_>) -> Result<()>
    ensures { ParsesExactly (literal 0 (Read kinds.BadByte)).parse plain reader.old reader.new result }
{
    let offset = reader.original_position();
    let byte = reader.read_u8()?;
    if byte != 0 {
        return Err(Fault::new(FaultKind::Read(ErrorKind::BadByte), offset));
    }
    Ok(())
}

/// An index of one of so many items of a space. Others are `Index` at their first byte.
pub fn read_index(space: Space, count: usize, reader: &mut BinaryReader<'_>) -> Result<u32>
    ensures { ParsesExactly (index space count).parse plain reader.old reader.new result }
{
    let offset = reader.original_position();
    let index = reader.read_var_u32()?;
    if index as usize >= count {
        return Err(Fault::new(FaultKind::Index(space), offset));
    }
    Ok(index)
}

/// Takes this byte, where it comes next.
pub fn take_byte(byte: u8, reader: &mut BinaryReader<'_>) -> bool
    ensures took { result ≡ true → TakesByte byte reader.old reader.new }
    ensures stays { result ≡ false → (reader.new ≡ reader.old) × IsOther byte (rest reader.old) }
{
    let Ok(next) = reader.peek() else {
        return false;
    };
    if next != byte {
        return false;
    }
    let _ = reader.read_u8();
    true
}
