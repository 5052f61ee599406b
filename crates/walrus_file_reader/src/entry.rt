//! Sections one behind another.

ghost use Rattle.std.specs.Prelude.{◌≡◌, ◌+◌, ◌<◌, OnOk, length};
ghost use Rattle.wasm_reader.specs.Cursor.{rest};
ghost use Rattle.walrus_section_frames.specs.walrus_known_sections.wasm_sections.Sections.{ends_with};
ghost use Rattle.walrus_section_reader.specs.Parses.{Parses};
ghost use Rattle.walrus_section_frames.specs.walrus_known_sections.State.{state_of};
ghost use Rattle.walrus_code_reader.specs.Code.{code_place};
ghost use Rattle.walrus_file_reader.specs.Contents.{section_step};

use crate::contents::read_contents;
use std::alloc::Global as Alloc;
use walrus_section_frames::known_sections::Sections;
use walrus_section_frames::{rank, read_section_id};
use walrus_section_reader::Result;
use wasm_reader::BinaryReader;

// The section of this id was read to this offset.
fn end_with(sections: &mut Sections<'_>, id: u8, end: u64)
    ensures { state_of sections.new ≡ ends_with id end (state_of sections.old) }
{
    if id != 0 {
        sections.last = rank(id);
    }
    sections.offset = end;
}

/// The next section, with its id.
pub fn read_one<'a>(
    alloc: Alloc,
    sections: &mut Sections<'a>,
    reader: &mut BinaryReader<'a>,
) -> Result<()>
    requires { sections.old.offset ≡ code_place reader.old }
    ensures step { Parses (section_step reader.old.window.features (state_of sections.old)) (λ _. state_of sections.new) reader.old reader.new result }
    ensures offset { OnOk result (sections.new.offset ≡ code_place reader.new) }
    ensures shorter { OnOk result (length (rest reader.new) < length (rest reader.old)) }
{
    let id = read_section_id(sections.last, reader)?;
    read_contents(alloc, id, sections, reader)?;
    end_with(sections, id, reader.original_position());
    Ok(())
}
