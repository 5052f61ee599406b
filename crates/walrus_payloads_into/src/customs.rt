//! Custom sections, one after another.

ghost use Rattle.std.specs.Prelude.{◌≡◌, map, IfOk};
ghost use Rattle.std.specs.List.{flat_map};
ghost use Rattle.wasm_body_grammar.specs.wasm_grammar.Modules.{Module};
ghost use Rattle.walrus_payload_readers.specs.wasm_name_payloads.Names.{names_if, names_of};
ghost use Rattle.walrus_payload_readers.specs.wasm_name_payloads.Producers as file;
ghost use Rattle.walrus_index_maps.specs.Views.{ids};
ghost use Rattle.walrus_payload_readers.specs.Bearers.{given_of};
ghost use Rattle.walrus_payloads_into.specs.Numbered.{IsNumbered};
ghost use Rattle.walrus_customs.specs.Producers.{fields_of};
ghost use Rattle.walrus_payloads_into.specs.Customs.{customs_of, AreCustoms};

use crate::names::read_section_names;
use crate::producers::{producers_of, read_fields};
use std::alloc::{AllocError, Global};
use walrus_customs::{ModuleProducers, ProducerField};
use walrus_index_maps::IndicesToIds;
use walrus_known_sections::Custom;
use walrus_payload_readers::Given;

// The names of all sections `name`.
fn read_names<'a>(
    alloc: Global,
    customs: &[Custom<'a>],
    maps: &IndicesToIds,
) -> Result<Vec<Given<'a>>, AllocError>
    ensures { IfOk result (λ names. (m : Module) → IsNumbered m (ids maps.now) → map given_of names.items ≡ flat_map (names_if m) (customs_of customs.now)) }
{
    let mut names = Vec::new(alloc);
    for custom in customs {
        read_section_names(maps, custom.name, custom.bytes, &mut names)?;
    }
    Ok(names)
}

// The fields of all sections `producers`.
fn read_producers(alloc: Global, customs: &[Custom<'_>]) -> Result<Vec<ProducerField>, AllocError>
    ensures { IfOk result (λ fields. fields_of fields.items ≡ flat_map file.producers_if (customs_of customs.now)) }
{
    let mut fields = Vec::new(alloc);
    for custom in customs {
        read_fields(alloc, custom.name, custom.bytes, &mut fields)?;
    }
    Ok(fields)
}

/// The names that the sections `name` of a file give, in its order: those of each module with these custom sections that the maps
/// number, bodies included.
///
/// # Errors
///
/// Want of memory.
pub fn names_in<'a>(
    alloc: Global,
    customs: &[Custom<'a>],
    maps: &IndicesToIds,
) -> Result<Vec<Given<'a>>, AllocError>
    ensures { IfOk result (λ names. (m : Module) → IsNumbered m (ids maps.now) → AreCustoms m customs.now → map given_of names.items ≡ names_of m) }
{
    read_names(alloc, customs, maps)
}

/// The producers of a module with these custom sections: what all its sections `producers` say, with the entry of this tool.
///
/// # Errors
///
/// Want of memory.
pub fn producers_in(alloc: Global, customs: &[Custom<'_>]) -> Result<ModuleProducers, AllocError>
    ensures { IfOk result (λ producers. (m : Module) → AreCustoms m customs.now → fields_of producers ≡ file.processed (file.producers_of m)) }
{
    let fields = read_producers(alloc, customs)?;
    producers_of(alloc, fields)
}
