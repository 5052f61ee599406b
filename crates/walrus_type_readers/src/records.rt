//! Subtypes that were read, as records of a type section.

ghost use Rattle.std.specs.Prelude.{◌≡◌, IfOk, map, option_map};
ghost use Rattle.std.specs.List.{list_any};
ghost use Rattle.walrus_forms.specs.Records.{field_of as field_told, record_form, record_kind, storage_of as storage_told, value_of as value_told};
ghost use Rattle.walrus_known_sections.specs.wasm_sections.wasm_grammar.TypeWords.{value_of};
ghost use Rattle.walrus_section_values.specs.Plain.{is_ref, plain_of};
ghost use Rattle.walrus_known_sections.specs.wasm_sections.TypeNames.{composite_form, field_of, form_of, kind_of, storage_of, super_of, told_all};

use crate::names::index_number;
use std::alloc::{AllocError, Global};
use walrus_forms::{CompositeRecord, FieldRecord, StorageRecord, TypeRecord, ValRecord};
use walrus_section_values::{plain_record, value_record};
use wasm_composite_types::{CompositeInnerType, CompositeType, FieldType, StorageType};
use wasm_ref_types::{PackedIndex, ValType};
use wasm_types::SubType;

fn is_ref(ty: ValType) -> bool
    ensures { result ≡ is_ref ty }
{
    match ty {
        ValType::Ref(_) => true,
        _ => false,
    }
}

fn has_ref(types: &[ValType]) -> bool
    ensures { result ≡ list_any is_ref types.now }
{
    types.iter().any(|ty| is_ref(*ty))
}

// The records of numbers and vectors. Without a test for references it is one look-up for each, and no jumps.
fn plain_records(alloc: Global, types: &[ValType]) -> Result<Vec<ValRecord>, AllocError>
    ensures { IfOk result (λ records. map value_told records.items ≡ map plain_of types.now) }
{
    let mut records = Vec::with_capacity(alloc, types.len())?;
    for ty in types {
        records.push_reserved(plain_record(*ty));
    }
    Ok(records)
}

#[inline(always)]
fn value_records(alloc: Global, types: &[ValType]) -> Result<Option<Vec<ValRecord>>, AllocError>
    ensures { IfOk result (λ records. option_map (λ v. map value_told v.items) records ≡ told_all value_of types.now) }
{
    if !has_ref(types) {
        let records = plain_records(alloc, types)?;
        return Ok(Some(records));
    }
    let mut records = Vec::with_capacity(alloc, types.len())?;
    for ty in types {
        let Some(record) = value_record(*ty) else {
            return Ok(None);
        };
        records.push(record)?;
    }
    Ok(Some(records))
}

fn storage_record(ty: StorageType) -> Option<StorageRecord>
    ensures { option_map storage_told result ≡ storage_of ty }
{
    match ty {
        StorageType::I8 => Some(StorageRecord::I8),
        StorageType::I16 => Some(StorageRecord::I16),
        StorageType::Val(ty) => Some(StorageRecord::Val(value_record(ty)?)),
    }
}

fn field_record(field: FieldType) -> Option<FieldRecord>
    ensures { option_map field_told result ≡ field_of field }
{
    Some(FieldRecord {
        element_type: storage_record(field.element_type)?,
        mutable: field.mutable,
    })
}

fn field_records(
    alloc: Global,
    fields: &[FieldType],
) -> Result<Option<Vec<FieldRecord>>, AllocError>
    ensures { IfOk result (λ records. option_map (λ v. map field_told v.items) records ≡ told_all field_of fields.now) }
{
    let mut records = Vec::with_capacity(alloc, fields.len())?;
    for field in fields {
        let Some(record) = field_record(*field) else {
            return Ok(None);
        };
        records.push(record)?;
    }
    Ok(Some(records))
}

fn form_record(
    alloc: Global,
    form: &CompositeInnerType,
) -> Result<Option<CompositeRecord>, AllocError>
    ensures { IfOk result (λ made. option_map record_form made ≡ form_of form.now) }
{
    match form {
        CompositeInnerType::Func(ty) => {
            let Some(params) = value_records(alloc, ty.params())? else {
                return Ok(None);
            };
            let Some(results) = value_records(alloc, ty.results())? else {
                return Ok(None);
            };
            Ok(Some(CompositeRecord::Function { params, results }))
        }
        CompositeInnerType::Struct(ty) => {
            let Some(fields) = field_records(alloc, ty.fields.as_slice())? else {
                return Ok(None);
            };
            Ok(Some(CompositeRecord::Struct { fields }))
        }
        CompositeInnerType::Array(ty) => match field_record(ty.0) {
            Some(field) => Ok(Some(CompositeRecord::Array { field })),
            None => Ok(None),
        },
        CompositeInnerType::Cont(_) => Ok(None),
    }
}

// Shared forms have no record.
fn composite_record(
    alloc: Global,
    ty: &CompositeType,
) -> Result<Option<CompositeRecord>, AllocError>
    ensures { IfOk result (λ made. option_map record_form made ≡ composite_form ty.now) }
{
    if ty.shared {
        return Ok(None);
    }
    form_record(alloc, &ty.inner)
}

fn super_number(index: Option<PackedIndex>) -> Option<u32>
    ensures { result ≡ super_of index }
{
    index_number(index?)
}

/// The record of a subtype, where modules of this project have it.
///
/// # Errors
///
/// Want of memory.
pub(crate) fn type_record(alloc: Global, ty: &SubType) -> Result<Option<TypeRecord>, AllocError>
    ensures { IfOk result (λ made. option_map record_kind made ≡ kind_of ty.now) }
{
    let Some(kind) = composite_record(alloc, &ty.composite_type)? else {
        return Ok(None);
    };
    Ok(Some(TypeRecord {
        kind,
        is_final: ty.is_final,
        supertype: super_number(ty.supertype_idx),
    }))
}
