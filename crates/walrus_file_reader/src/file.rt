//! The whole file.

ghost use Rattle.std.specs.Prelude.{◌≡◌, ◌+◌, IfErr, IfOk, OnOk};
ghost use Rattle.walrus_section_frames.specs.walrus_known_sections.wasm_sections.Laws.{ReadsSections};
ghost use Rattle.wasm_reader.specs.Cursor.{rest};
ghost use Rattle.walrus_section_reader.specs.Faults.{IsMemory};
ghost use Rattle.walrus_section_reader.specs.Parses.{ParsesWhole};
ghost use Rattle.walrus_section_frames.specs.walrus_known_sections.State.{state_of};
ghost use Rattle.walrus_code_reader.specs.Code.{code_place};
ghost use Rattle.walrus_file_reader.specs.Files.{HasHeader, IsRefused, file_steps, rounds, sections_to_end};

use crate::entry::read_one;
use crate::header::read_header;
use std::alloc::Global as Alloc;
use walrus_errors::ModuleError;
use walrus_section_frames::has_all;
use walrus_section_frames::known_sections::Sections;
use walrus_section_reader::{Fault, FaultKind, Result};
use wasm_features::WasmFeatures;
use wasm_reader::BinaryReader;

// Sections to the last byte: each takes at least one.
fn read_rounds<'a>(
    alloc: Alloc,
    sections: &mut Sections<'a>,
    reader: &mut BinaryReader<'a>,
) -> Result<()>
    requires { sections.old.offset ≡ code_place reader.old }
    ensures { ParsesWhole (rounds reader.old.window.features (state_of sections.old)) (λ _. state_of sections.new) reader.old result }
{
    for _ in 0..reader.bytes_remaining() {
        if reader.eof() {
            return Ok(());
        }
        read_one(alloc, sections, reader)?;
    }
    Ok(())
}

// Sections to the last byte, and nothing is missing there.
fn read_to_end<'a>(
    alloc: Alloc,
    sections: &mut Sections<'a>,
    reader: &mut BinaryReader<'a>,
) -> Result<()>
    requires { sections.old.offset ≡ code_place reader.old }
    ensures { ParsesWhole (sections_to_end reader.old.window.features (state_of sections.old)) (λ _. state_of sections.new) reader.old result }
{
    let end = reader.remaining_range().end;
    read_rounds(alloc, sections, reader)?;
    if !has_all(sections) {
        return Err(Fault::new(FaultKind::Count, end));
    }
    Ok(())
}

// The header and all behind it.
fn read_file<'a>(
    alloc: Alloc,
    sections: &mut Sections<'a>,
    reader: &mut BinaryReader<'a>,
) -> Result<()>
    requires { sections.old.offset ≡ code_place reader.old + 8 }
    ensures header { IfErr result (λ fault. IsMemory fault → HasHeader (rest reader.old)) }
    ensures file { ParsesWhole (file_steps reader.old.window.features (state_of sections.old)) (λ _. state_of sections.new) reader.old result }
{
    read_header(reader)?;
    read_to_end(alloc, sections, reader)
}

/// The sections of a file, with its bodies as so many bytes.
///
/// # Errors
///
/// The first fault of the file at its place, or want of memory, which may stand in place of what comes behind the header.
pub fn read_sections<'a>(
    alloc: Alloc,
    features: WasmFeatures,
    bytes: &'a [u8],
) -> Result<Sections<'a>, ModuleError>
    ensures read { IfOk result (λ sections. ReadsSections features bytes.now (state_of sections)) }
    ensures header { OnOk result (HasHeader bytes.now) }
    ensures refused { IfErr result (λ error. IsRefused features bytes.now error) }
{
    let mut reader = BinaryReader::new_features(bytes, 0, features);
    let mut sections = Sections::new(alloc);
    match read_file(alloc, &mut sections, &mut reader) {
        Ok(()) => Ok(sections),
        Err(fault) => Err(ModuleError::from(fault)),
    }
}
