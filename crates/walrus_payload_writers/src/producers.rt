//! The section `producers` (WebAssembly tool conventions).

ghost use Rattle.std.specs.Prelude.{◌≡◌, [], IsOk};
ghost use Rattle.wasm_name_payloads.specs.Written.{field_bytes, producers_bytes, value_bytes};
ghost use Rattle.walrus_customs.specs.Producers.{field_of, fields_of, value_of, values_of};
ghost use Rattle.walrus_payload_writers.specs.Writes.{Writes};
ghost use Rattle.walrus_payload_writers.specs.Producers.{producers_section, values_bytes};

use crate::leaves::{write_custom, write_name, write_size};
use walrus_customs::{ProducerField, ProducerValue};
use walrus_errors::Result;

#[tactic(auto, using(crate::proofs::Lemmas::writes_on, crate::proofs::Lemmas::refused_front))]
fn write_value(out: &mut Vec<u8>, value: &ProducerValue) -> Result<()>
    ensures { Writes (value_bytes (value_of value.now)) out.old.items out.new.items result }
{
    write_name(out, value.name())?;
    write_name(out, value.version())
}

fn write_values(out: &mut Vec<u8>, values: &[ProducerValue]) -> Result<()>
    ensures { Writes (values_bytes (values_of values.now)) out.old.items out.new.items result }
{
    write_size(out, values.len())?;
    for value in values {
        write_value(out, value)?;
    }
    Ok(())
}

#[tactic(auto, using(crate::proofs::Lemmas::writes_on, crate::proofs::Lemmas::refused_front))]
fn write_field(out: &mut Vec<u8>, field: &ProducerField) -> Result<()>
    ensures { Writes (field_bytes (field_of field.now)) out.old.items out.new.items result }
{
    write_name(out, field.name())?;
    write_values(out, field.values())
}

fn write_fields(out: &mut Vec<u8>, fields: &[ProducerField]) -> Result<()>
    ensures { Writes (producers_bytes (fields_of fields.now)) out.old.items out.new.items result }
{
    write_size(out, fields.len())?;
    for field in fields {
        write_field(out, field)?;
    }
    Ok(())
}

/// Puts the section `producers` behind the bytes; nothing where there are no fields.
///
/// # Errors
///
/// Want of memory, unless there are no fields; `OutputLimit` of a file where the section alone is longer than one may be. What was there
/// stands at the front.
pub fn write_producers(out: &mut Vec<u8>, fields: &[ProducerField]) -> Result<()>
    ensures writes { Writes (producers_section (fields_of fields.now)) out.old.items out.new.items result }
    ensures none { fields.now ≡ [] → IsOk result }
{
    if fields.is_empty() {
        return Ok(());
    }
    let mut payload = Vec::new(*out.allocator());
    write_fields(&mut payload, fields)?;
    write_custom(out, "producers", payload.as_slice())
}
