//! The sections of a file.

ghost use Rattle.std.specs.Prelude.{◌^◌, ◌≤◌, length, IfErr, IfOk, OnOk};
ghost use Rattle.walrus_file_reader.specs.Files.{HasHeader};
ghost use Rattle.walrus_named_bodies.specs.walrus_file_bodies.walrus_items_into.wasm_sections.Laws.{ReadsSections};
ghost use Rattle.walrus_named_bodies.specs.walrus_file_bodies.walrus_items_into.walrus_tables_into.walrus_sections_into.walrus_known_sections.State.{state_of};
ghost use Rattle.walrus_parse.specs.Refusals.{IsRefusal};

use std::alloc::Global;
use walrus_errors::{ModuleError, Result};
use walrus_file_reader::read_sections;
use walrus_named_bodies::file_bodies::items_into::tables_into::sections_into::known_sections::Sections;
use walrus_named_bodies::file_bodies::items_into::tables_into::sections_into::operators::immediate_forms::reader::features::WasmFeatures;

// A file has at most so many bytes.
const MAX_FILE: usize = 1 << 30;

/// The sections of a file, with its bodies as so many bytes (Core Specification, binary format: modules).
///
/// # Errors
///
/// `InputTooLong` past 2^30 bytes; else the first fault of the sections, at its place; want of memory, in place of what comes behind the
/// header.
pub fn read_file<'a>(alloc: Global, features: WasmFeatures, wasm: &'a [u8]) -> Result<Sections<'a>>
    ensures short { OnOk result (length wasm.now ≤ 2 ^ 30) }
    ensures read { IfOk result (λ sections. ReadsSections features wasm.now (state_of sections)) }
    ensures header { OnOk result (HasHeader wasm.now) }
    ensures refused { IfErr result (λ error. IsRefusal features wasm.now error) }
{
    if wasm.len() > MAX_FILE {
        return Err(ModuleError::InputTooLong);
    }
    read_sections(alloc, features, wasm)
}
