//! The types that a subtype names, by their indices.

ghost use Rattle.std.specs.Prelude.{◌≡◌, nat_le};
ghost use Rattle.std.specs.List.{filter_map, list_any};
ghost use Rattle.walrus_known_sections.specs.wasm_sections.TypeNames.{field_index, index_number, inner_names, sub_names, super_names, value_index};

use wasm_composite_types::{CompositeInnerType, FieldType};
use wasm_ref_types::{PackedIndex, UnpackedIndex, ValType};
use wasm_types::SubType;

/// The number of a module's type.
pub(crate) fn index_number(index: PackedIndex) -> Option<u32>
    ensures { result ≡ index_number index }
{
    match index.unpack() {
        UnpackedIndex::Module(number) => Some(number),
        UnpackedIndex::RecGroup(_) => None,
        UnpackedIndex::Id(_) => None,
    }
}

// The type that a value type names.
fn value_index(ty: ValType) -> Option<u32>
    ensures { result ≡ value_index ty }
{
    match ty {
        ValType::Ref(ty) => index_number(ty.type_index()?),
        _ => None,
    }
}

// The type that a field names.
fn field_index(field: FieldType) -> Option<u32>
    ensures { result ≡ field_index field }
{
    value_index(field.element_type.unpack())
}

fn has_value_from(end: usize, types: &[ValType]) -> bool
    ensures { result ≡ list_any (λ name. nat_le end name) (filter_map value_index types.now) }
{
    types
        .iter()
        .filter_map(|ty| value_index(*ty))
        .any(|name| end <= name as usize)
}

fn has_field_from(end: usize, fields: &[FieldType]) -> bool
    ensures { result ≡ list_any (λ name. nat_le end name) (filter_map field_index fields.now) }
{
    fields
        .iter()
        .filter_map(|field| field_index(*field))
        .any(|name| end <= name as usize)
}

fn has_inner_from(end: usize, form: &CompositeInnerType) -> bool
    ensures { result ≡ list_any (λ name. nat_le end name) (inner_names form.now) }
{
    match form {
        CompositeInnerType::Func(ty) => {
            has_value_from(end, ty.params()) || has_value_from(end, ty.results())
        }
        CompositeInnerType::Struct(ty) => has_field_from(end, ty.fields.as_slice()),
        CompositeInnerType::Array(ty) => has_field_from(end, &[ty.0]),
        CompositeInnerType::Cont(_) => false,
    }
}

fn is_super_from(end: usize, index: Option<PackedIndex>) -> bool
    ensures { result ≡ list_any (λ name. nat_le end name) (super_names index) }
{
    match index {
        Some(index) => match index_number(index) {
            Some(name) => end <= name as usize,
            None => false,
        },
        None => false,
    }
}

/// Whether it names a type at `end` or behind it.
pub(crate) fn has_name_from(end: usize, ty: &SubType) -> bool
    ensures { result ≡ list_any (λ name. nat_le end name) (sub_names ty.now) }
{
    is_super_from(end, ty.supertype_idx) || has_inner_from(end, &ty.composite_type.inner)
}
