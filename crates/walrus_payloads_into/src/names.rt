//! The sections `name` of a file.

ghost use Rattle.std.specs.Prelude.{◌≡◌, ◌++◌, OnOk, map, Some};
ghost use Rattle.walrus_index_maps.specs.Views.{ids};
ghost use Rattle.wasm_body_grammar.specs.wasm_grammar.Modules.{Module};
ghost use Rattle.walrus_payload_readers.specs.wasm_name_payloads.Names.{names_if};
ghost use Rattle.walrus_payload_readers.specs.Bearers.{given_of};
ghost use Rattle.walrus_payloads_into.specs.Numbered.{IsNumbered};

use crate::numbered::Numbered;
use std::alloc::AllocError;
use walrus_index_maps::IndicesToIds;
use walrus_payload_readers::{Given, read_names};

/// Pushes the names that a custom section of this name and payload gives, if it is a section `name`, in their order: those that
/// stand whole before its first fault, of what there is in any module that the maps number, bodies included. Names of several
/// sections stand one behind another.
///
/// # Errors
///
/// Want of memory. A fault of the payload is none.
pub fn read_section_names<'a>(
    maps: &IndicesToIds,
    section: &str,
    payload: &'a [u8],
    names: &mut Vec<Given<'a>>,
) -> Result<(), AllocError>
    ensures { OnOk result ((m : Module) → IsNumbered m (ids maps.now) → map given_of names.new.items ≡ map given_of names.old.items ++ names_if m (Some (record { name = section.now; bytes = payload.now }))) }
{
    if section != "name" {
        return Ok(());
    }
    let numbered = Numbered { maps };
    read_names(&numbered, payload, names)
}
