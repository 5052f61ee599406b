//! Sections that aren't lists of entries, each put into what was read before it.

ghost use Rattle.std.specs.Prelude.{◌≡◌, ℕ};
ghost use Rattle.wasm_reader.specs.Cursor.{end_of};
ghost use Rattle.wasm_reader.specs.Reading.{plain};
ghost use Rattle.walrus_section_frames.specs.walrus_known_sections.wasm_sections.wasm_grammar.wasm_formats.Joined.{checked};
ghost use Rattle.walrus_section_frames.specs.walrus_known_sections.wasm_sections.wasm_grammar.wasm_formats.Stops.{Count};
ghost use Rattle.walrus_section_frames.specs.walrus_known_sections.wasm_sections.wasm_grammar.wasm_formats.Wholes.{u32};
ghost use Rattle.walrus_section_frames.specs.walrus_known_sections.wasm_sections.wasm_grammar.Values.{must};
ghost use Rattle.walrus_section_frames.specs.walrus_known_sections.wasm_sections.Sections.{data_test};
ghost use Rattle.walrus_section_reader.specs.Parses.{Parses, ParsesExactly};
ghost use Rattle.walrus_section_frames.specs.walrus_known_sections.State.{state_of};
ghost use Rattle.walrus_file_reader.specs.Contents.{code_put};

use std::alloc::Global as Alloc;
use walrus_code_reader::{read_code_section, set_bodies};
use walrus_section_frames::known_sections::{Each, Sections};
use walrus_section_frames::section_values::read_u32;
use walrus_section_reader::{Entries, Fault, FaultKind, Result, read_entries};
use walrus_segment_readers::Segments;
use wasm_reader::BinaryReader;

/// The code section behind its id.
pub fn read_code<'a>(
    alloc: Alloc,
    sections: &mut Sections<'a>,
    reader: &mut BinaryReader<'a>,
) -> Result<()>
    ensures { Parses (code_put (end_of reader.old) (state_of sections.old)) (λ _. state_of sections.new) reader.old reader.new result }
{
    let code = read_code_section(alloc, sections, reader)?;
    set_bodies(sections, code);
    Ok(())
}

// Whether there are to be so many data segments.
fn agrees(sections: &Sections<'_>, count: u32) -> bool
    ensures { data_test (state_of sections.now).data_count count ≡ must result Count }
{
    match sections.data_count {
        Some(said) => count == said,
        None => true,
    }
}

// The count of data segments.
fn read_data_count(sections: &Sections<'_>, reader: &mut BinaryReader<'_>) -> Result<u32>
    ensures { ParsesExactly (checked u32 (data_test (state_of sections.now).data_count)).parse plain reader.old reader.new result }
{
    let offset = reader.original_position();
    let count = read_u32(reader)?;
    if !agrees(sections, count) {
        return Err(Fault::new(FaultKind::Count, offset));
    }
    Ok(count)
}

/// Data segments, as many as the data count says where there is one.
pub struct Data;

impl<'a> Entries<'a> for Data {
    type Into = Sections<'a>;

    ghost use Rattle.walrus_section_frames.specs.walrus_known_sections.wasm_sections.wasm_grammar.States.{State};
    ghost use Rattle.walrus_section_frames.specs.walrus_known_sections.State.{state_of};
    ghost use Rattle.walrus_file_reader.specs.Contents.{data_put};

    ghost State = { State };

    ghost state = { state_of };

    ghost step = { data_put };

    fn read_entry(
        alloc: Alloc,
        into: &mut Self::Into,
        reader: &mut BinaryReader<'a>,
    ) -> Result<()> {
        let count = read_data_count(into, reader)?;
        read_entries::<Each<'a, Segments>>(alloc, count as usize, into, reader)
    }
}
