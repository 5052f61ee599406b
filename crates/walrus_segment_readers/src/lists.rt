//! What element segments list: functions, and constant expressions.

ghost use Rattle.std.specs.Prelude.{◌≡◌, length, map};
ghost use Rattle.walrus_entry_readers.specs.walrus_known_sections.wasm_sections.wasm_grammar.wasm_formats.declared.fault.Space.TheVariants as spaces;
ghost use Rattle.walrus_entry_readers.specs.walrus_known_sections.wasm_sections.wasm_grammar.Exprs.{expr};
ghost use Rattle.walrus_entry_readers.specs.walrus_known_sections.wasm_sections.wasm_grammar.States.{known};
ghost use Rattle.walrus_entry_readers.specs.walrus_known_sections.wasm_sections.wasm_grammar.Values.{index};
ghost use Rattle.walrus_entry_readers.specs.walrus_known_sections.wasm_sections.Segments.{expressions, functions};
ghost use Rattle.walrus_entry_readers.specs.walrus_section_values.walrus_section_reader.Parses.{Parses};
ghost use Rattle.walrus_entry_readers.specs.walrus_section_values.walrus_section_reader.Repeats.{listed_at};
ghost use Rattle.walrus_segment_readers.specs.Lists.{exprs_of, many_at, numbers_of};
ghost use Rattle.walrus_entry_readers.specs.walrus_known_sections.State.{state_of};

use std::alloc::Global as Alloc;
use walrus_entry_readers::formats::Space;
use walrus_entry_readers::operators::Operator;
use walrus_entry_readers::section_reader::Result;
use walrus_entry_readers::section_values::{read_index, read_u32};
use walrus_entry_readers::{Sections, read_init};
use wasm_reader::BinaryReader;

// So many indices of functions, each of one of `functions`.
fn read_indices(
    alloc: Alloc,
    count: usize,
    functions: usize,
    reader: &mut BinaryReader<'_>,
) -> Result<Vec<u32>>
    ensures { Parses (listed_at (index spaces.Function functions) count) numbers_of reader.old reader.new result }
{
    let mut list = Vec::new(alloc);
    for _ in 0..count {
        let function = read_index(Space::Function, functions, reader)?;
        list.push(function)?;
    }
    Ok(list)
}

// A count, and that many indices of functions.
fn read_some_functions(
    alloc: Alloc,
    functions: usize,
    reader: &mut BinaryReader<'_>,
) -> Result<Vec<u32>>
    ensures { Parses (many_at (index spaces.Function functions)) numbers_of reader.old reader.new result }
{
    let count = read_u32(reader)? as usize;
    read_indices(alloc, count, functions, reader)
}

// How many functions there are.
fn function_count(sections: &Sections<'_>) -> usize
    ensures { result ≡ length (state_of sections.now).filled.functions }
{
    sections.functions.len()
}

/// A vec of functions.
pub(crate) fn read_functions(
    alloc: Alloc,
    sections: &Sections<'_>,
    reader: &mut BinaryReader<'_>,
) -> Result<Vec<u32>>
    ensures { Parses (functions (state_of sections.now)).parse numbers_of reader.old reader.new result }
{
    read_some_functions(alloc, function_count(sections), reader)
}

// So many constant expressions.
fn read_exprs(
    alloc: Alloc,
    count: usize,
    sections: &Sections<'_>,
    reader: &mut BinaryReader<'_>,
) -> Result<Vec<Vec<Operator>>>
    ensures { Parses (listed_at (expr reader.old.window.features (known (state_of sections.now))) count) exprs_of reader.old reader.new result }
{
    let mut list = Vec::new(alloc);
    for _ in 0..count {
        let expr = read_init(alloc, sections, reader)?;
        list.push(expr)?;
    }
    Ok(list)
}

/// A vec of constant expressions.
pub(crate) fn read_expressions(
    alloc: Alloc,
    sections: &Sections<'_>,
    reader: &mut BinaryReader<'_>,
) -> Result<Vec<Vec<Operator>>>
    ensures { Parses (expressions reader.old.window.features (state_of sections.now)).parse exprs_of reader.old reader.new result }
{
    let count = read_u32(reader)? as usize;
    read_exprs(alloc, count, sections, reader)
}
