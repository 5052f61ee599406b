//! Custom sections (Core Specification, binary format: custom section).

ghost use Rattle.std.specs.Prelude.{◌≡◌, OnOk};
ghost use Rattle.wasm_formats.specs.Wholes.{sized};
ghost use Rattle.walrus_entry_readers.specs.walrus_known_sections.wasm_sections.Sections.{add_custom, custom};
ghost use Rattle.walrus_section_reader.specs.Parses.{Parses, ParsesExactly};
ghost use Rattle.walrus_entry_readers.specs.walrus_known_sections.State.{state_of};
ghost use Rattle.walrus_section_frames.specs.Customs.{ReadsWhole, custom_entry_of, custom_put};

use std::alloc::AllocError;
use walrus_entry_readers::section_values::read_name;
use walrus_entry_readers::{Custom, Sections};
use walrus_section_reader::{Result, open_section};
use wasm_reader::BinaryReader;

/// A name, and all bytes behind it. Of these nothing is asked. Takes no memory.
pub fn read_custom<'a>(contents: &mut BinaryReader<'a>) -> Result<Custom<'a>>
    ensures { ReadsWhole custom.parse custom_entry_of contents.old result }
{
    let name = read_name(contents)?;
    let left = contents.bytes_remaining();
    let bytes = contents.read_bytes(left)?;
    Ok(Custom { name, bytes })
}

/// A custom section behind its id: a size, and so many bytes. Takes no memory.
pub fn read_custom_section<'a>(reader: &mut BinaryReader<'a>) -> Result<Custom<'a>>
    ensures { ParsesExactly (sized custom).parse custom_entry_of reader.old reader.new result }
{
    let mut contents = open_section(reader)?;
    let custom = read_custom(&mut contents)?;
    Ok(custom)
}

fn add_custom<'a>(
    sections: &mut Sections<'a>,
    custom: Custom<'a>,
) -> std::result::Result<(), AllocError>
    ensures { OnOk result (state_of sections.new ≡ add_custom (state_of sections.old) (custom_entry_of custom.entry)) }
{
    sections.customs.push(custom)?;
    Ok(())
}

/// A custom section behind its id, put behind those before it.
#[tactic(auto, using(crate::proofs::Exact::parses))]
pub fn put_custom_section<'a>(
    sections: &mut Sections<'a>,
    reader: &mut BinaryReader<'a>,
) -> Result<()>
    ensures { Parses (custom_put (state_of sections.old)) (λ _. state_of sections.new) reader.old reader.new result }
{
    let custom = read_custom_section(reader)?;
    add_custom(sections, custom)?;
    Ok(())
}
