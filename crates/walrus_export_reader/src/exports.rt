//! The exports of a section.

ghost use Rattle.std.specs.Prelude.{◌≡◌, ◌+◌, ◌≤◌, ℕ, All, IfErr, IfOk, [], length};
ghost use Rattle.wasm_reader.specs.Cursor.{Forward};
ghost use Rattle.walrus_known_sections.specs.wasm_sections.Exports.{add_export, export_entry};
ghost use Rattle.walrus_section_values.specs.walrus_section_reader.Parses.{Parses};
ghost use Rattle.walrus_section_values.specs.walrus_section_reader.Steps.{entries_by, vec_by};
ghost use Rattle.walrus_known_sections.specs.State.{state_of};
ghost use Rattle.walrus_export_reader.specs.Repeats.{names_of};
ghost use Rattle.walrus_export_reader.specs.Verdicts.{Checks, ReadsCandidates, ended_by, export_step};

use crate::candidates::{add_candidate, read_candidate};
use crate::repeats::first_repeat;
use std::alloc::{AllocError, Global as Alloc};
use walrus_known_sections::Sections;
use walrus_section_values::section_reader::{Entries, Fault, FaultKind, Result};
use wasm_reader::BinaryReader;

// So many exports and their places, up to the first that is refused whether or not its name is new.
#[tactic(auto, using(crate::proofs::Judged::judges_none, crate::proofs::Judged::judges_end, crate::proofs::Judged::moves_on))]
fn read_candidates<'a>(
    count: usize,
    sections: &mut Sections<'a>,
    places: &mut Vec<u64>,
    reader: &mut BinaryReader<'a>,
) -> std::result::Result<Option<Fault>, AllocError>
    requires { places.old.items ≡ [] }
    ensures candidates { IfOk result (λ fault. ReadsCandidates count sections.old sections.new places.new.items reader.old reader.new fault) }
    ensures moves { Forward reader.old reader.new }
{
    for _ in 0..count {
        let candidate = match read_candidate(sections, reader) {
            Ok(candidate) => candidate,
            Err(fault) => return Ok(Some(fault)),
        };
        places.push(candidate.offset)?;
        add_candidate(sections, candidate)?;
        if candidate.fault.is_some() {
            return Ok(candidate.fault);
        }
    }
    Ok(None)
}

// The first of the exports from `from` on whose name stands earlier is refused, at its place.
#[tactic(auto, using(crate::proofs::Judged::place_within))]
fn check_names(alloc: Alloc, sections: &Sections<'_>, from: usize, places: &[u64]) -> Result<()>
    requires { from + length places.now ≡ length sections.now.exports.items }
    ensures names { Checks (names_of sections.now.exports.items) from places.now result }
    ensures place { IfErr result (λ e. (end : ℕ) → All (λ p. p ≤ end) places.now → e.offset ≤ end) }
{
    let first = first_repeat(alloc, sections.exports.as_slice(), from)?;
    if first < sections.exports.len() {
        return Err(Fault::new(FaultKind::DuplicateExport, places[first - from]));
    }
    Ok(())
}

// Where reading ended.
fn ended(fault: Option<Fault>) -> Result<()>
    ensures { result ≡ ended_by fault }
{
    match fault {
        Some(fault) => Err(fault),
        None => Ok(()),
    }
}

// So many exports.
fn read_counted<'a>(
    alloc: Alloc,
    count: usize,
    sections: &mut Sections<'a>,
    reader: &mut BinaryReader<'a>,
) -> Result<()>
    ensures { Parses (entries_by export_step count (state_of sections.old)) (λ _. state_of sections.new) reader.old reader.new result }
{
    let from = sections.exports.len();
    let mut places = Vec::new(alloc);
    let fault = read_candidates(count, sections, &mut places, reader)?;
    match check_names(alloc, sections, from, places.as_slice()) {
        Ok(()) => ended(fault),
        Err(twice) => Err(twice),
    }
}

// A count, and that many exports.
fn read_exports<'a>(
    alloc: Alloc,
    sections: &mut Sections<'a>,
    reader: &mut BinaryReader<'a>,
) -> Result<()>
    ensures { Parses (vec_by export_step (state_of sections.old)) (λ _. state_of sections.new) reader.old reader.new result }
{
    let count = reader.read_var_u32()? as usize;
    read_counted(alloc, count, sections, reader)
}

/// A vec of exports. Of names that stand twice the first place is refused, unless another fault comes before it.
pub struct Exports;

impl<'a> Entries<'a> for Exports {
    type Into = Sections<'a>;

    ghost use Rattle.walrus_known_sections.specs.wasm_sections.wasm_grammar.States.{State};
    ghost use Rattle.walrus_section_values.specs.walrus_section_reader.Steps.{vec_by};
    ghost use Rattle.walrus_known_sections.specs.State.{state_of};
    ghost use Rattle.walrus_export_reader.specs.Verdicts.{export_step};

    ghost State = { State };

    ghost state = { state_of };

    ghost step = { λ _. vec_by export_step };

    fn read_entry(
        alloc: Alloc,
        into: &mut Self::Into,
        reader: &mut BinaryReader<'a>,
    ) -> Result<()> {
        read_exports(alloc, into, reader)
    }
}
