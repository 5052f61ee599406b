//! Exports as they are read, before it is known whether their names are new.

ghost use Rattle.std.specs.Prelude.{◌≡◌, OnOk};
ghost use Rattle.wasm_formats.specs.Joined.{after};
ghost use Rattle.walrus_known_sections.specs.wasm_sections.wasm_grammar.States.{count_of};
ghost use Rattle.walrus_known_sections.specs.wasm_sections.wasm_grammar.Values.{byte_below, name};
ghost use Rattle.walrus_known_sections.specs.wasm_sections.Exports.{add_export, kind_space};
ghost use Rattle.walrus_section_values.specs.walrus_section_reader.Parses.{ParsesExactly};
ghost use Rattle.walrus_known_sections.specs.State.{state_of};
ghost use Rattle.walrus_export_reader.specs.Candidates.{IsTested, ReadsCandidate, entry_of, front_of};

use std::alloc::AllocError;
use walrus_known_sections::{Export, Sections};
use walrus_section_values::section_reader::{Fault, FaultKind, Limited, Result, Space};
use walrus_section_values::{read_below, read_name, read_u32};
use wasm_reader::BinaryReader;
use wasm_reader::limits::MAX_WASM_EXPORTS;

/// An export as it stands: its name, its kind and the number of its item, the offset of its first byte, and what it is refused for if its
/// name is new.
#[derive(Clone, Copy)]
pub struct Candidate<'a> {
    pub name: &'a str,
    pub kind: u8,
    pub index: u32,
    pub offset: u64,
    pub fault: Option<Fault>,
}

// A name and a kind.
fn read_front<'a>(reader: &mut BinaryReader<'a>) -> Result<(&'a str, u8)>
    ensures { ParsesExactly (after name (λ _. byte_below 5)).parse front_of reader.old reader.new result }
{
    let name = read_name(reader)?;
    let kind = read_below(5, reader)?;
    Ok((name, kind))
}

// The space of a kind.
fn space_of(kind: u8) -> Space
    ensures { result ≡ kind_space kind }
{
    match kind {
        0 => Space::Function,
        1 => Space::Table,
        2 => Space::Memory,
        3 => Space::Global,
        _ => Space::Tag,
    }
}

// How many items of a kind there are.
fn item_count(sections: &Sections<'_>, kind: u8) -> usize
    ensures { result ≡ count_of (state_of sections.now).filled (kind_space kind) }
{
    match kind {
        0 => sections.functions.len(),
        1 => sections.tables.len(),
        2 => sections.memories.len(),
        3 => sections.globals.len(),
        _ => sections.tags.len(),
    }
}

// What an export is refused for: there is no room for it, or its item isn't there.
fn export_fault(
    sections: &Sections<'_>,
    kind: u8,
    index: u32,
    offset: u64,
    index_offset: u64,
) -> Option<Fault>
    ensures { IsTested (state_of sections.now) kind index offset index_offset result }
{
    if sections.exports.len() >= MAX_WASM_EXPORTS {
        return Some(Fault::new(FaultKind::Limit(Limited::Exports), offset));
    }
    if index as usize >= item_count(sections, kind) {
        let missing = FaultKind::Index(space_of(kind));
        return Some(Fault::new(missing, index_offset));
    }
    None
}

/// The next export, whether or not its name is new.
pub fn read_candidate<'a>(
    sections: &Sections<'a>,
    reader: &mut BinaryReader<'a>,
) -> Result<Candidate<'a>>
    ensures { ReadsCandidate (state_of sections.now) reader.old reader.new result }
{
    let offset = reader.original_position();
    let (name, kind) = read_front(reader)?;
    let index_offset = reader.original_position();
    let index = read_u32(reader)?;
    let fault = export_fault(sections, kind, index, offset, index_offset);
    Ok(Candidate {
        name,
        kind,
        index,
        offset,
        fault,
    })
}

/// Puts an export behind those before it.
pub fn add_candidate<'a>(
    sections: &mut Sections<'a>,
    candidate: Candidate<'a>,
) -> std::result::Result<(), AllocError>
    ensures { OnOk result (state_of sections.new ≡ add_export (state_of sections.old) (entry_of candidate.entry)) }
{
    sections.exports.push(Export {
        name: candidate.name,
        space: space_of(candidate.kind),
        index: candidate.index,
    })?;
    Ok(())
}
