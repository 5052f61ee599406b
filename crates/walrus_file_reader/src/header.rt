//! The magic number and the version.

ghost use Rattle.std.specs.Prelude.{◌≡◌};
ghost use Rattle.wasm_reader.specs.Reading.{plain};
ghost use Rattle.walrus_section_frames.specs.walrus_known_sections.wasm_sections.Modules.{header, magic};
ghost use Rattle.walrus_section_reader.specs.Parses.{ParsesExactly};

use walrus_section_reader::{Fault, FaultKind, Result};
use wasm_reader::BinaryReader;

const HEADER: [u8; 8] = *b"\0asm\x01\0\0\0";

/// The eight bytes that a file begins with. Others are `Header` at the first.
pub fn read_header(reader: &mut BinaryReader<'_>) -> Result<()>
    ensures { ParsesExactly header.parse plain reader.old reader.new result }
{
    let offset = reader.original_position();
    let Ok(bytes) = reader.read_bytes(8) else {
        return Err(Fault::new(FaultKind::Header, offset));
    };
    if bytes == HEADER.as_slice() {
        Ok(())
    } else {
        Err(Fault::new(FaultKind::Header, offset))
    }
}
