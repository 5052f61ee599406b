//! The payload of the section `producers` (WebAssembly tool conventions).

ghost use Rattle.std.specs.Prelude.{◌≡◌, ◌++◌, IfOk, OnOk};
ghost use Rattle.wasm_name_payloads.specs.Keepers.{one};
ghost use Rattle.wasm_name_payloads.specs.Joined.{times};
ghost use Rattle.wasm_name_payloads.specs.Producers.{value, field, producers_in};
ghost use Rattle.walrus_customs.specs.Producers.{value_of, field_of, fields_of};
ghost use Rattle.walrus_payload_readers.specs.Gives.{Gives};
ghost use Rattle.walrus_payload_readers.specs.Keeps.{Keeps};
ghost use Rattle.walrus_payload_readers.specs.Values.{pair_of, values_in, values, values_seen};

use crate::leaves::{read_text, read_u32};
use std::alloc::{AllocError, Global};
use walrus_customs::{ProducerField, ProducerValue};
use wasm_reader::BinaryReader;

// A name and its version.
fn read_pair<'a>(reader: &mut BinaryReader<'a>) -> Option<(&'a str, &'a str)>
    ensures { Gives value.parse pair_of reader.old reader.new result }
{
    let Ok(name) = reader.read_unlimited_string() else {
        return None;
    };
    match reader.read_unlimited_string() {
        Ok(version) => Some((name, version)),
        Err(_) => None,
    }
}

fn new_value(alloc: Global, name: &str, version: &str) -> Result<ProducerValue, AllocError>
    ensures { IfOk result (λ v. value_of v ≡ record { name = name.now; version = version.now }) }
{
    Ok(ProducerValue {
        name: String::from_str(alloc, name)?,
        version: String::from_str(alloc, version)?,
    })
}

// So many values: all of them, or none. Nothing is reserved by the count.
fn read_values(
    alloc: Global,
    count: u32,
    reader: &mut BinaryReader<'_>,
) -> Result<Option<Vec<ProducerValue>>, AllocError>
    ensures { IfOk result (λ r. Gives (values_in count) values_seen reader.old reader.new r) }
{
    let mut values = Vec::new(alloc);
    for _ in 0..count {
        let Some((name, version)) = read_pair(reader) else {
            return Ok(None);
        };
        let value = new_value(alloc, name, version)?;
        values.push(value)?;
    }
    Ok(Some(values))
}

// The values of a field: a count, and so many.
fn read_list(
    alloc: Global,
    reader: &mut BinaryReader<'_>,
) -> Result<Option<Vec<ProducerValue>>, AllocError>
    ensures { IfOk result (λ r. Gives values.parse values_seen reader.old reader.new r) }
{
    let Some(count) = read_u32(reader) else {
        return Ok(None);
    };
    read_values(alloc, count, reader)
}

// A field: its name and its values.
fn read_field(
    alloc: Global,
    reader: &mut BinaryReader<'_>,
) -> Result<Option<ProducerField>, AllocError>
    ensures { IfOk result (λ r. Gives field.parse field_of reader.old reader.new r) }
{
    let Some(name) = read_text(reader) else {
        return Ok(None);
    };
    let Some(values) = read_list(alloc, reader)? else {
        return Ok(None);
    };
    let name = String::from_str(alloc, name)?;
    Ok(Some(ProducerField { name, values }))
}

// A field that is pushed. Whether it stands there.
fn push_field(
    alloc: Global,
    reader: &mut BinaryReader<'_>,
    fields: &mut Vec<ProducerField>,
) -> Result<bool, AllocError>
    ensures { IfOk result (λ whole. Keeps (one field).keeps field_of fields.old.items fields.new.items reader.old reader.new whole) }
{
    let Some(field) = read_field(alloc, reader)? else {
        return Ok(false);
    };
    fields.push(field)?;
    Ok(true)
}

// So many fields, to the first that isn't there. Nothing is reserved by the count.
fn push_fields(
    alloc: Global,
    count: u32,
    reader: &mut BinaryReader<'_>,
    fields: &mut Vec<ProducerField>,
) -> Result<bool, AllocError>
    ensures { IfOk result (λ whole. Keeps (times (one field) count).keeps field_of fields.old.items fields.new.items reader.old reader.new whole) }
{
    for _ in 0..count {
        if !push_field(alloc, reader, fields)? {
            return Ok(false);
        }
    }
    Ok(true)
}

/// Pushes the fields of a payload of the section `producers`, in their order: those that stand whole before its first fault.
///
/// # Errors
///
/// Want of memory. A fault of the payload is none.
pub fn read_producers(
    alloc: Global,
    payload: &[u8],
    fields: &mut Vec<ProducerField>,
) -> Result<(), AllocError>
    ensures { OnOk result (fields_of fields.new.items ≡ fields_of fields.old.items ++ producers_in payload.now) }
{
    let mut reader = BinaryReader::new(payload, 0);
    let Some(count) = read_u32(&mut reader) else {
        return Ok(());
    };
    push_fields(alloc, count, &mut reader, fields)?;
    Ok(())
}
