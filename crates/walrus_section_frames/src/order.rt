//! The ids of sections, in their order.

ghost use Rattle.std.specs.Prelude.{◌≡◌};
ghost use Rattle.wasm_reader.specs.Reading.{plain};
ghost use Rattle.wasm_formats.specs.Bytes.{byte};
ghost use Rattle.wasm_formats.specs.Joined.{checked};
ghost use Rattle.wasm_formats.specs.Stops.{SectionOrder};
ghost use Rattle.walrus_entry_readers.specs.walrus_known_sections.wasm_sections.wasm_grammar.Values.{must};
ghost use Rattle.walrus_entry_readers.specs.walrus_known_sections.wasm_sections.Sections.{order_test};
ghost use Rattle.walrus_entry_readers.specs.walrus_known_sections.wasm_sections.Sections.{rank as rank_of};
ghost use Rattle.walrus_section_reader.specs.Parses.{ParsesExactly};

use walrus_section_reader::{Fault, FaultKind, Result};
use wasm_reader::BinaryReader;

/// Where the section of an id stands in a module: 13 (tags) behind 5, 12 (the data count) before 10.
pub fn rank(id: u8) -> u8
    ensures { result ≡ rank_of id }
{
    match id {
        13 => 6,
        6 => 7,
        7 => 8,
        8 => 9,
        9 => 10,
        12 => 11,
        10 => 12,
        11 => 13,
        _ => id,
    }
}

// Whether a section of this id may stand behind the one of rank `last`: custom ones stand anywhere.
fn may_follow(last: u8, id: u8) -> bool
    ensures { order_test last id ≡ must result SectionOrder }
{
    id == 0 || (id <= 13 && last < rank(id))
}

/// The id of a section, which may stand behind the one of rank `last`. Others are `SectionOrder` at the id.
pub fn read_section_id(last: u8, reader: &mut BinaryReader<'_>) -> Result<u8>
    ensures { ParsesExactly (checked byte (order_test last)).parse plain reader.old reader.new result }
{
    let offset = reader.original_position();
    let id = reader.read_u8()?;
    if !may_follow(last, id) {
        return Err(Fault::new(FaultKind::SectionOrder, offset));
    }
    Ok(id)
}
