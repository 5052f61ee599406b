//! Types whose names are indices (Core Specification, binary format: composite types, subtypes).

ghost use Rattle.std.specs.Prelude.{[], ◌∷◌, ◌++◌, map};
ghost use Rattle.walrus_forms.specs.Records.{record_form, record_kind, value_of, field_of};
ghost use Rattle.walrus_forms.specs.Forms.{ArrayForm, FunctionForm, StructForm};
ghost use Rattle.walrus_emit_parts.specs.Due.{Writes, written};
ghost use Rattle.walrus_emit_due.specs.Types.{form, kind, list, supertypes};

use crate::values::{write_field, write_value};
use walrus_emit_parts::{Entry, write_byte, write_number, write_vec};
use walrus_errors::{Limited, ModuleError, Result};
use walrus_forms::{CompositeRecord, FieldRecord, TypeRecord, ValRecord};

// What a reader takes at most.
const MAX_PARAMS: usize = 1_000;

const MAX_RESULTS: usize = 1_000;

const MAX_FIELDS: usize = 10_000;

#[derive(Clone, Copy)]
struct Values;

impl Entry<ValRecord> for Values {
    ghost use Rattle.walrus_forms.specs.declared.value.ValType.{ValType};
    ghost use Rattle.walrus_forms.specs.Records.{value_of};
    ghost use Rattle.walrus_emit_due.specs.Types.{value};

    ghost Seen = { ValType };

    ghost see = { value_of };

    ghost due = { λ w. value };

    fn write(&self, out: &mut Vec<u8>, item: &ValRecord) -> Result<()> {
        write_value(out, *item)
    }
}

#[derive(Clone, Copy)]
struct Fields;

impl Entry<FieldRecord> for Fields {
    ghost use Rattle.walrus_forms.specs.declared.value.FieldType.{FieldType};
    ghost use Rattle.walrus_forms.specs.Records.{field_of};
    ghost use Rattle.walrus_emit_due.specs.Types.{field};

    ghost Seen = { FieldType };

    ghost see = { field_of };

    ghost due = { λ w. field };

    fn write(&self, out: &mut Vec<u8>, item: &FieldRecord) -> Result<()> {
        write_field(out, *item)
    }
}

/// A list of at most so many.
pub(crate) fn write_list<T, W: Entry<T>>(
    out: &mut Vec<u8>,
    writer: &W,
    items: &[T],
    most: usize,
) -> Result<()>
    ensures { Writes (list most (W.due writer.now) (map W.see items.now)) out.old.items out.new.items result }
{
    if items.len() > most {
        let of = Limited::List;
        return Err(ModuleError::OutputLimit { of });
    }
    write_vec(out, writer, items)
}

#[tactic(auto, using(walrus_emit_parts::proofs::Lemmas::writes_on, walrus_emit_parts::proofs::Lemmas::refused_front, walrus_emit_values::proofs::Lemmas::byte_on))]
fn write_function(out: &mut Vec<u8>, params: &[ValRecord], results: &[ValRecord]) -> Result<()>
    ensures { Writes (form (FunctionForm (map value_of params.now) (map value_of results.now))) out.old.items out.new.items result }
{
    put!(write_byte(out, 0x60));
    put!(write_list(out, &Values, params, MAX_PARAMS));
    write_list(out, &Values, results, MAX_RESULTS)
}

#[tactic(auto, using(walrus_emit_parts::proofs::Lemmas::refused_front, walrus_emit_values::proofs::Lemmas::byte_on))]
fn write_struct(out: &mut Vec<u8>, fields: &[FieldRecord]) -> Result<()>
    ensures { Writes (form (StructForm (map field_of fields.now))) out.old.items out.new.items result }
{
    put!(write_byte(out, 0x5f));
    write_list(out, &Fields, fields, MAX_FIELDS)
}

#[tactic(auto, using(walrus_emit_parts::proofs::Lemmas::refused_front, walrus_emit_values::proofs::Lemmas::byte_on))]
fn write_array(out: &mut Vec<u8>, field: FieldRecord) -> Result<()>
    ensures { Writes (form (ArrayForm (field_of field))) out.old.items out.new.items result }
{
    put!(write_byte(out, 0x5e));
    write_field(out, field)
}

fn write_form(out: &mut Vec<u8>, kind: &CompositeRecord) -> Result<()>
    ensures { Writes (form (record_form kind.now)) out.old.items out.new.items result }
{
    match kind {
        CompositeRecord::Function { params, results } => {
            write_function(out, params.as_slice(), results.as_slice())
        }
        CompositeRecord::Struct { fields } => write_struct(out, fields.as_slice()),
        CompositeRecord::Array { field } => write_array(out, *field),
    }
}

// The supertypes, at most one.
#[tactic(auto, using(walrus_emit_parts::proofs::Lemmas::writes_on, walrus_emit_parts::proofs::Lemmas::refused_front))]
fn write_supertypes(out: &mut Vec<u8>, supertype: Option<u32>) -> Result<()>
    ensures { Writes (supertypes supertype) out.old.items out.new.items result }
{
    match supertype {
        Some(index) => {
            put!(write_number(out, 1));
            write_number(out, u64::from(index))
        }
        None => write_number(out, 0),
    }
}

#[tactic(auto, using(walrus_emit_parts::proofs::Lemmas::writes_on, walrus_emit_parts::proofs::Lemmas::refused_front, walrus_emit_values::proofs::Lemmas::byte_on))]
fn write_open(out: &mut Vec<u8>, first: u8, ty: &TypeRecord) -> Result<()>
    ensures { Writes (written (first ∷ []) ++ (supertypes ty.now.supertype ++ form (record_form ty.now.kind))) out.old.items out.new.items result }
{
    put!(write_byte(out, first));
    put!(write_supertypes(out, ty.supertype));
    write_form(out, &ty.kind)
}

/// A type: a final one without supertype bare.
pub(crate) fn write_type(out: &mut Vec<u8>, ty: &TypeRecord) -> Result<()>
    ensures { Writes (kind (record_kind ty.now)) out.old.items out.new.items result }
{
    if !ty.is_final {
        return write_open(out, 0x50, ty);
    }
    match ty.supertype {
        Some(_) => write_open(out, 0x4f, ty),
        None => write_form(out, &ty.kind),
    }
}
