//! The types that a form names.
ghost use Rattle.std.specs.Prelude.{◌≡◌, ℕ, ◌≤◌, ◌++◌, ◌==◌, ◌||◌, Some, OnOk, OnErr, take, length};
ghost use Rattle.std.specs.List.{filter_map, list_any};
ghost use Rattle.std.specs.Option.{option_to_list};
ghost use Rattle.walrus_forms.specs.Values.{value_name, field_name};
ghost use Rattle.walrus_forms.specs.Forms.{form_of, form_names};

use crate::composite::CompositeType;
use crate::value::{FieldType, ValType};
use std::alloc::AllocError;
use walrus_arena::TypeId;

// Adds the type, if there is one.
fn push_name(name: Option<TypeId>, refs: &mut Vec<TypeId>) -> Result<(), AllocError>
    ensures added { OnOk result (refs.new.items ≡ refs.old.items ++ option_to_list name) }
    ensures refused { OnErr result (refs.new.items ≡ refs.old.items) }
{
    if let Some(id) = name {
        refs.push(id)?;
    }
    Ok(())
}

// Adds the types that these value types name. A refusal leaves what was there at the front.
fn push_value_names(values: &[ValType], refs: &mut Vec<TypeId>) -> Result<(), AllocError>
    ensures added { OnOk result (refs.new.items ≡ refs.old.items ++ filter_map value_name values.now) }
    ensures grows { length refs.old.items ≤ length refs.new.items }
    ensures kept { (n : ℕ) → n ≤ length refs.old.items → take n refs.new.items ≡ take n refs.old.items }
{
    for value in values {
        push_name(value.type_id(), refs)?;
    }
    Ok(())
}

// Adds the types that these fields name. A refusal leaves what was there at the front.
fn push_field_names(fields: &[FieldType], refs: &mut Vec<TypeId>) -> Result<(), AllocError>
    ensures added { OnOk result (refs.new.items ≡ refs.old.items ++ filter_map field_name fields.now) }
    ensures grows { length refs.old.items ≤ length refs.new.items }
    ensures kept { (n : ℕ) → n ≤ length refs.old.items → take n refs.new.items ≡ take n refs.old.items }
{
    for field in fields {
        push_name(field.type_id(), refs)?;
    }
    Ok(())
}

impl CompositeType {
    /// Adds to `refs` the types that it names, in its order.
    ///
    /// # Errors
    ///
    /// Want of memory. What was in `refs` stands at its front.
    pub fn push_names(&self, refs: &mut Vec<TypeId>) -> Result<(), AllocError>
        ensures added { OnOk result (refs.new.items ≡ refs.old.items ++ form_names (form_of self.now)) }
        ensures grows { length refs.old.items ≤ length refs.new.items }
        ensures kept { (n : ℕ) → n ≤ length refs.old.items → take n refs.new.items ≡ take n refs.old.items }
    {
        match self {
            CompositeType::Function(ty) => {
                push_value_names(ty.params(), refs)?;
                push_value_names(ty.results(), refs)
            }
            CompositeType::Struct(ty) => push_field_names(ty.fields.as_slice(), refs),
            CompositeType::Array(ty) => push_field_names(&[ty.field], refs),
        }
    }

    /// Whether it names the type.
    pub fn names(&self, id: TypeId) -> bool
        ensures { result ≡ list_any (λ name. name == id) (form_names (form_of self.now)) }
    {
        match self {
            CompositeType::Function(ty) => {
                values_name(ty.params(), id) || values_name(ty.results(), id)
            }
            CompositeType::Struct(ty) => fields_name(ty.fields.as_slice(), id),
            CompositeType::Array(ty) => fields_name(&[ty.field], id),
        }
    }
}

fn values_name(values: &[ValType], id: TypeId) -> bool
    ensures { result ≡ list_any (λ name. name == id) (filter_map value_name values.now) }
{
    values
        .iter()
        .filter_map(|value| value.type_id())
        .any(|name| name.index() == id.index())
}

fn fields_name(fields: &[FieldType], id: TypeId) -> bool
    ensures { result ≡ list_any (λ name. name == id) (filter_map field_name fields.now) }
{
    fields
        .iter()
        .filter_map(|field| field.type_id())
        .any(|name| name.index() == id.index())
}
