//! The start function and the data count (Core Specification, binary format: start section, data count section).

ghost use Rattle.std.specs.Prelude.{◌≡◌, length, OnOk};
ghost use Rattle.wasm_formats.specs.declared.fault.Space.TheVariants as spaces;
ghost use Rattle.wasm_reader.specs.Reading.{plain};
ghost use Rattle.walrus_entry_readers.specs.walrus_known_sections.wasm_sections.Exports.{set_start, start_function};
ghost use Rattle.walrus_entry_readers.specs.walrus_known_sections.wasm_sections.Sections.{set_count};
ghost use Rattle.walrus_section_reader.specs.Parses.{Parses};
ghost use Rattle.walrus_entry_readers.specs.walrus_known_sections.State.{state_of};

use std::alloc::{AllocError, Global as Alloc};
use walrus_entry_readers::section_values::{read_index, read_u32};
use walrus_entry_readers::{Entry, Sections};
use walrus_section_reader::{Result, Space};
use wasm_reader::BinaryReader;

fn function_count(sections: &Sections<'_>) -> usize
    ensures { result ≡ length (state_of sections.now).filled.functions }
{
    sections.functions.len()
}

// The index of a function.
fn read_start(sections: &Sections<'_>, reader: &mut BinaryReader<'_>) -> Result<u32>
    ensures { Parses (start_function (state_of sections.now)).parse plain reader.old reader.new result }
{
    read_index(Space::Function, function_count(sections), reader)
}

fn add_start(sections: &mut Sections<'_>, function: u32)
    ensures { state_of sections.new ≡ set_start (state_of sections.old) function }
{
    sections.start = Some(function);
}

fn add_count(sections: &mut Sections<'_>, count: u32)
    ensures { state_of sections.new ≡ set_count (state_of sections.old) count }
{
    sections.data_count = Some(count);
}

/// The start function.
pub struct Start;

impl<'a> Entry<'a> for Start {
    type Value = u32;

    ghost use Rattle.std.specs.Prelude.{ℕ};
    ghost use Rattle.wasm_reader.specs.Reading.{plain};
    ghost use Rattle.walrus_entry_readers.specs.walrus_known_sections.wasm_sections.Exports.{set_start, start_function};

    ghost Seen = { ℕ };

    ghost seen = { plain };

    ghost parse = { λ _ s. (start_function s).parse };

    ghost put = { set_start };

    fn read(
        _alloc: Alloc,
        sections: &Sections<'a>,
        reader: &mut BinaryReader<'a>,
    ) -> Result<Self::Value> {
        read_start(sections, reader)
    }

    fn add(sections: &mut Sections<'a>, value: Self::Value) -> std::result::Result<(), AllocError> {
        add_start(sections, value);
        Ok(())
    }
}

/// The data count.
pub struct DataCount;

impl<'a> Entry<'a> for DataCount {
    type Value = u32;

    ghost use Rattle.std.specs.Prelude.{ℕ};
    ghost use Rattle.wasm_reader.specs.Reading.{plain};
    ghost use Rattle.wasm_formats.specs.Wholes.{u32};
    ghost use Rattle.walrus_entry_readers.specs.walrus_known_sections.wasm_sections.Sections.{set_count};

    ghost Seen = { ℕ };

    ghost seen = { plain };

    ghost parse = { λ _ _. u32.parse };

    ghost put = { set_count };

    fn read(
        _alloc: Alloc,
        _sections: &Sections<'a>,
        reader: &mut BinaryReader<'a>,
    ) -> Result<Self::Value> {
        read_u32(reader)
    }

    fn add(sections: &mut Sections<'a>, value: Self::Value) -> std::result::Result<(), AllocError> {
        add_count(sections, value);
        Ok(())
    }
}
