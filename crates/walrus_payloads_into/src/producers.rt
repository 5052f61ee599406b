//! Fields that were read, as the producers of a module.

ghost use Rattle.std.specs.Prelude.{◌≡◌, ◌++◌, IfOk, OnOk, Some};
ghost use Rattle.walrus_payload_readers.specs.wasm_name_payloads.Producers.{processed, producers_if};
ghost use Rattle.walrus_customs.specs.Producers.{fields_of};

use std::alloc::{AllocError, Global};
use walrus_customs::{ModuleProducers, ProducerField};
use walrus_payload_readers::read_producers;

/// Pushes the fields of a custom section of this name and payload, if it is a section `producers`: those that stand whole before
/// the first fault. Fields of several sections stand one behind another.
///
/// # Errors
///
/// Want of memory. A fault of the payload is none.
pub fn read_fields(
    alloc: Global,
    name: &str,
    payload: &[u8],
    fields: &mut Vec<ProducerField>,
) -> Result<(), AllocError>
    ensures { OnOk result (fields_of fields.new.items ≡ fields_of fields.old.items ++ producers_if (Some (record { name = name.now; bytes = payload.now }))) }
{
    if name == "producers" {
        return read_producers(alloc, payload, fields);
    }
    Ok(())
}

/// The producers of a module of which these fields were read: the same, with the entry of this tool.
///
/// # Errors
///
/// Want of memory.
pub fn producers_of(
    alloc: Global,
    fields: Vec<ProducerField>,
) -> Result<ModuleProducers, AllocError>
    ensures { IfOk result (λ producers. fields_of producers ≡ processed (fields_of fields.items)) }
{
    let mut producers = ModuleProducers::from_fields(alloc, fields);
    producers.add_processed_by("walrus", "0.28.0")?;
    Ok(producers)
}
