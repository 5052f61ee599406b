//! The section of each id.

ghost use Rattle.wasm_reader.specs.Cursor.{end_of};
ghost use Rattle.walrus_section_reader.specs.Parses.{Parses};
ghost use Rattle.walrus_section_frames.specs.walrus_known_sections.State.{state_of};
ghost use Rattle.walrus_file_reader.specs.Contents.{section_put};

use crate::pieces::{Data, read_code};
use std::alloc::Global as Alloc;
use walrus_export_reader::Exports;
use walrus_section_frames::known_sections::{Each, Sections};
use walrus_section_frames::{DataCount, Start, put_custom_section};
use walrus_section_reader::{Fault, FaultKind, Many, Result, read_section};
use walrus_segment_readers::Elements;
use walrus_segment_readers::entry_readers::{Functions, Globals, Imports, Memories, Tables, Tags};
use walrus_type_readers::Types;
use wasm_reader::BinaryReader;

/// The section of this id, behind the id. Others than 0 to 13 are `SectionOrder`.
pub fn read_contents<'a>(
    alloc: Alloc,
    id: u8,
    sections: &mut Sections<'a>,
    reader: &mut BinaryReader<'a>,
) -> Result<()>
    ensures { Parses (section_put reader.old.window.features (end_of reader.old) (state_of sections.old) id) (λ _. state_of sections.new) reader.old reader.new result }
{
    match id {
        0 => put_custom_section(sections, reader),
        1 => read_section::<Many<Each<'a, Types>>>(alloc, sections, reader),
        2 => read_section::<Many<Each<'a, Imports>>>(alloc, sections, reader),
        3 => read_section::<Many<Each<'a, Functions>>>(alloc, sections, reader),
        4 => read_section::<Many<Each<'a, Tables>>>(alloc, sections, reader),
        5 => read_section::<Many<Each<'a, Memories>>>(alloc, sections, reader),
        6 => read_section::<Many<Each<'a, Globals>>>(alloc, sections, reader),
        7 => read_section::<Exports>(alloc, sections, reader),
        8 => read_section::<Each<'a, Start>>(alloc, sections, reader),
        9 => read_section::<Many<Each<'a, Elements>>>(alloc, sections, reader),
        10 => read_code(alloc, sections, reader),
        11 => read_section::<Data>(alloc, sections, reader),
        12 => read_section::<Each<'a, DataCount>>(alloc, sections, reader),
        13 => read_section::<Many<Each<'a, Tags>>>(alloc, sections, reader),
        _ => {
            let offset = reader.original_position();
            Err(Fault::new(FaultKind::SectionOrder, offset))
        }
    }
}
