//! The window of a section's contents.

ghost use Rattle.std.specs.Prelude.{◌≡◌, ◌+◌, ◌<◌, length, IfOk, IfErr, OnOk, OnErr};
ghost use Rattle.wasm_reader.specs.Cursor.{IsInner, rest, end_of};
ghost use Rattle.wasm_reader.specs.Reading.{seen_window};
ghost use Rattle.walrus_section_reader.specs.declared.fault.FaultKind.TheVariants.{SectionSize};
ghost use Rattle.walrus_section_reader.specs.Opened.{opened_at};
ghost use Rattle.walrus_section_reader.specs.Parses.{ParsesExactly};

use crate::fault::{Fault, FaultKind, Result};
use wasm_reader::BinaryReader;

/// A size, and a reader of that many bytes. A size that passes the end of the bytes is `SectionSize` at its first byte.
#[tactic(auto, unfolding(crate::specs::Opened::opened_at))]
pub fn open_section<'a>(reader: &mut BinaryReader<'a>) -> Result<BinaryReader<'a>>
    ensures contents { ParsesExactly opened_at seen_window reader.old reader.new result }
    ensures place { IfOk result (λ inner. IsInner reader.new inner) }
{
    let offset = reader.original_position();
    let size = reader.read_var_u32()? as usize;
    if size > reader.bytes_remaining() {
        return Err(Fault::new(FaultKind::SectionSize, offset));
    }
    let offset = reader.original_position();
    let contents = reader.read_bytes(size)?;
    let features = reader.features();
    Ok(BinaryReader::new_features(contents, offset, features))
}

/// A section's contents were read to their end, or the first byte that is left is `SectionSize`.
pub fn close_section(contents: &BinaryReader<'_>) -> Result<()>
    ensures whole { OnOk result (length (rest contents.now) ≡ 0) }
    ensures kind { IfErr result (λ e. e.kind ≡ SectionSize) }
    ensures place { IfErr result (λ e. e.offset + length (rest contents.now) ≡ end_of contents.now) }
    ensures left_over { OnErr result (0 < length (rest contents.now)) }
{
    if !contents.eof() {
        let offset = contents.original_position();
        return Err(Fault::new(FaultKind::SectionSize, offset));
    }
    Ok(())
}
