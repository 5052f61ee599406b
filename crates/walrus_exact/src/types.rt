//! Exact heap types in types.
ghost use Rattle.std.specs.Prelude.{◌≡◌};
ghost use Rattle.std.specs.List.{list_any};
ghost use Rattle.walrus_forms.specs.Forms.{form_of};
ghost use Rattle.walrus_exact.specs.Exact.{field_exact, form_exact, ref_exact, val_exact, written_exact};

use walrus_forms::{CompositeType, FieldType, HeapType, RefType, StorageType, ValType};

/// Whether the heap type is exact.
pub fn ref_exact(ty: &RefType) -> bool
    ensures { result ≡ ref_exact ty.now }
{
    match ty.heap_type {
        HeapType::Abstract(_) | HeapType::Shared(_) | HeapType::Concrete(_) => false,
        HeapType::Exact(_) => true,
    }
}

/// Whether it is a reference type whose heap type is exact.
pub fn val_exact(ty: &ValType) -> bool
    ensures { result ≡ val_exact ty.now }
{
    match ty {
        ValType::Ref(ty) => ref_exact(ty),
        _ => false,
    }
}

/// The same of a type that may be written.
pub(crate) fn written_exact(ty: &Option<ValType>) -> bool
    ensures { result ≡ written_exact ty.now }
{
    match ty {
        Some(ty) => val_exact(ty),
        None => false,
    }
}

fn values_exact(types: &[ValType]) -> bool
    ensures { result ≡ list_any val_exact types.now }
{
    types.iter().any(|ty| val_exact(ty))
}

fn field_exact(field: &FieldType) -> bool
    ensures { result ≡ field_exact field.now }
{
    match &field.element_type {
        StorageType::Val(ty) => val_exact(ty),
        StorageType::I8 | StorageType::I16 => false,
    }
}

fn fields_exact(fields: &[FieldType]) -> bool
    ensures { result ≡ list_any field_exact fields.now }
{
    fields.iter().any(|field| field_exact(field))
}

/// Whether a type of the form has an exact heap type.
pub fn form_exact(ty: &CompositeType) -> bool
    ensures { result ≡ form_exact (form_of ty.now) }
{
    match ty {
        CompositeType::Function(ty) => values_exact(ty.params()) || values_exact(ty.results()),
        CompositeType::Struct(ty) => fields_exact(ty.fields.as_slice()),
        CompositeType::Array(ty) => field_exact(&ty.field),
    }
}
