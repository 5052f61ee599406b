//! Values of payloads: one that isn't there is none, whatever the cause.

ghost use Rattle.wasm_reader.specs.Reading.{plain, seen_bytes};
ghost use Rattle.wasm_formats.specs.Bytes.{byte};
ghost use Rattle.wasm_formats.specs.Joined.{after};
ghost use Rattle.wasm_formats.specs.Wholes.{u32};
ghost use Rattle.wasm_grammar.specs.Values.{run};
ghost use Rattle.wasm_name_payloads.specs.Names.{association, text};
ghost use Rattle.walrus_payload_readers.specs.Gives.{Gives, association_of};

use wasm_reader::BinaryReader;

/// A u32.
pub fn read_u32(reader: &mut BinaryReader<'_>) -> Option<u32>
    ensures { Gives u32.parse plain reader.old reader.new result }
{
    match reader.read_var_u32() {
        Ok(number) => Some(number),
        Err(_) => None,
    }
}

/// A name of any length.
pub fn read_text<'a>(reader: &mut BinaryReader<'a>) -> Option<&'a str>
    ensures { Gives text.parse seen_bytes reader.old reader.new result }
{
    match reader.read_unlimited_string() {
        Ok(text) => Some(text),
        Err(_) => None,
    }
}

/// So many bytes.
pub fn read_run<'a>(size: u32, reader: &mut BinaryReader<'a>) -> Option<&'a [u8]>
    ensures { Gives (run size).parse seen_bytes reader.old reader.new result }
{
    match reader.read_bytes(size as usize) {
        Ok(bytes) => Some(bytes),
        Err(_) => None,
    }
}

/// An index and a name.
pub fn read_association<'a>(reader: &mut BinaryReader<'a>) -> Option<(u32, &'a str)>
    ensures { Gives association.parse association_of reader.old reader.new result }
{
    let Ok(index) = reader.read_var_u32() else {
        return None;
    };
    match reader.read_unlimited_string() {
        Ok(name) => Some((index, name)),
        Err(_) => None,
    }
}

/// The id of a subsection, and its size.
pub fn read_head(reader: &mut BinaryReader<'_>) -> Option<(u8, u32)>
    ensures { Gives (after byte (λ _. u32)).parse plain reader.old reader.new result }
{
    let Ok(id) = reader.read_u8() else {
        return None;
    };
    match reader.read_var_u32() {
        Ok(size) => Some((id, size)),
        Err(_) => None,
    }
}
