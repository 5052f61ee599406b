//! The records of a type section: types that name one another by index (Core Specification, recursive
//! types).
ghost use Rattle.std.specs.Prelude.{◌≡◌, ◌+◌, ◌<◌, ◌++◌, [], ◌∷◌, IfOk, IfSome, All, length, map, vec_len, vec_capacity};
ghost use Rattle.std.specs.List.{list_any};
ghost use Rattle.walrus_forms.specs.Forms.{form_of};
ghost use Rattle.walrus_forms.specs.Records.{heap_of, ref_of, value_of, storage_of, field_of, record_form, record_kind, type_group, plain_of, is_ref};
ghost use Rattle.walrus_forms.specs.Values.{heap_name, ref_name, value_name, storage_name, field_name};
ghost use Rattle.walrus_forms.specs.Renaming.{HeapBelow, RefBelow, ValueBelow, StorageBelow, FieldBelow, FormBelow, renamed_heap, renamed_ref, renamed_value, renamed_field, renamed_storage, renamed_form, at};

use crate::composite::{ArrayType, CompositeType, FunctionType, StructType};
use crate::value::{AbstractHeapType, FieldType, HeapType, RefType, StorageType, ValType};
use std::alloc::{AllocError, Global};
use walrus_arena::TypeId;

/// What a reference of a record points to.
#[derive(Clone, Copy, PartialEq, Eq)]
pub enum HeapRecord {
    Abstract(AbstractHeapType),
    /// The same among what threads share.
    Shared(AbstractHeapType),
    /// Values of the type of this index and of its subtypes.
    Concrete(u32),
    /// Values of the type of this index alone.
    Exact(u32),
}

/// A reference type of a record.
#[derive(Clone, Copy, PartialEq, Eq)]
pub struct RefRecord {
    pub nullable: bool,
    pub heap_type: HeapRecord,
}

/// A value type of a record.
#[derive(Clone, Copy, PartialEq, Eq)]
pub enum ValRecord {
    I32,
    I64,
    F32,
    F64,
    V128,
    Ref(RefRecord),
}

/// What a field of a record holds: a value, or an integer of 8 or 16 bits.
#[derive(Clone, Copy, PartialEq, Eq)]
pub enum StorageRecord {
    Val(ValRecord),
    I8,
    I16,
}

/// The type of a field of a record.
#[derive(Clone, Copy, PartialEq, Eq)]
pub struct FieldRecord {
    pub element_type: StorageRecord,
    pub mutable: bool,
}

/// The form of a record.
#[derive(PartialEq, Eq, Drop)]
pub enum CompositeRecord {
    Function {
        params: Vec<ValRecord>,
        results: Vec<ValRecord>,
    },
    Struct {
        fields: Vec<FieldRecord>,
    },
    Array {
        field: FieldRecord,
    },
}

/// A type of a type section: what a table's type is, with indices of the section for ids.
#[derive(PartialEq, Eq, Drop)]
pub struct TypeRecord {
    pub kind: CompositeRecord,
    /// Whether no type has it as supertype.
    pub is_final: bool,
    /// The index of the type that it declares to be below.
    pub supertype: Option<u32>,
}

/// A recursion group of a type section.
#[derive(PartialEq, Eq, Drop)]
pub struct GroupRecord {
    /// Whether it is written as a group, even if it has one member alone.
    pub marked: bool,
    /// The members, in their order.
    pub types: Vec<TypeRecord>,
}

impl HeapRecord {
    /// The index of the type that it names, if it names one.
    pub fn type_index(&self) -> Option<u32>
        ensures { result ≡ heap_name (heap_of self.now) }
    {
        match self {
            HeapRecord::Abstract(_) | HeapRecord::Shared(_) => None,
            HeapRecord::Concrete(index) | HeapRecord::Exact(index) => Some(*index),
        }
    }

    /// The type that it describes, where each index names the id that the list has there. Asks that the
    /// list has one for its index.
    pub fn resolve(self, ids: &[TypeId]) -> HeapType
        requires { HeapBelow (length ids.now) (heap_of self) }
        ensures { result ≡ renamed_heap (at ids.now) (heap_of self) }
    {
        match self {
            HeapRecord::Abstract(ty) => HeapType::Abstract(ty),
            HeapRecord::Shared(ty) => HeapType::Shared(ty),
            HeapRecord::Concrete(index) => HeapType::Concrete(ids[index as usize]),
            HeapRecord::Exact(index) => HeapType::Exact(ids[index as usize]),
        }
    }
}

impl RefRecord {
    /// The index of the type that it names, if it names one.
    pub fn type_index(&self) -> Option<u32>
        ensures { result ≡ ref_name (ref_of self.now) }
    {
        self.heap_type.type_index()
    }

    /// The type that it describes, where each index names the id that the list has there. Asks that the
    /// list has one for its index.
    pub fn resolve(self, ids: &[TypeId]) -> RefType
        requires { RefBelow (length ids.now) (ref_of self) }
        ensures { result ≡ renamed_ref (at ids.now) (ref_of self) }
    {
        RefType {
            nullable: self.nullable,
            heap_type: self.heap_type.resolve(ids),
        }
    }
}

// The type of a number or a vector.
#[inline(always)]
fn plain_value(value: ValRecord) -> ValType
    ensures { result ≡ plain_of value }
{
    match value {
        ValRecord::I32 => ValType::I32,
        ValRecord::I64 => ValType::I64,
        ValRecord::F32 => ValType::F32,
        ValRecord::F64 => ValType::F64,
        ValRecord::V128 => ValType::V128,
        ValRecord::Ref(_) => ValType::V128,
    }
}

// The same, apart: beside a test for a reference type it would be a jump for each type, not one look-up.
#[inline(never)]
fn plain_apart(value: ValRecord) -> ValType
    ensures { result ≡ plain_of value }
{
    plain_value(value)
}

fn is_ref(value: &ValRecord) -> bool
    ensures { result ≡ is_ref value.now }
{
    match value {
        ValRecord::Ref(_) => true,
        _ => false,
    }
}

impl ValRecord {
    /// The index of the type that it names, if it names one.
    pub fn type_index(&self) -> Option<u32>
        ensures { result ≡ value_name (value_of self.now) }
    {
        match self {
            ValRecord::Ref(ty) => ty.type_index(),
            _ => None,
        }
    }

    /// The type that it describes, where each index names the id that the list has there. Asks that the
    /// list has one for its index.
    pub fn resolve(self, ids: &[TypeId]) -> ValType
        requires { ValueBelow (length ids.now) (value_of self) }
        ensures { result ≡ renamed_value (at ids.now) (value_of self) }
    {
        match self {
            ValRecord::Ref(ty) => ValType::Ref(ty.resolve(ids)),
            plain => plain_apart(plain),
        }
    }
}

impl StorageRecord {
    /// The index of the type that it names, if it names one.
    pub fn type_index(&self) -> Option<u32>
        ensures { result ≡ storage_name (storage_of self.now) }
    {
        match self {
            StorageRecord::Val(ty) => ty.type_index(),
            StorageRecord::I8 | StorageRecord::I16 => None,
        }
    }

    /// The type that it describes, where each index names the id that the list has there. Asks that the
    /// list has one for its index.
    pub fn resolve(self, ids: &[TypeId]) -> StorageType
        requires { StorageBelow (length ids.now) (storage_of self) }
        ensures { result ≡ renamed_storage (at ids.now) (storage_of self) }
    {
        match self {
            StorageRecord::Val(ty) => StorageType::Val(ty.resolve(ids)),
            StorageRecord::I8 => StorageType::I8,
            StorageRecord::I16 => StorageType::I16,
        }
    }
}

impl FieldRecord {
    /// The index of the type that it names, if it names one.
    pub fn type_index(&self) -> Option<u32>
        ensures { result ≡ field_name (field_of self.now) }
    {
        self.element_type.type_index()
    }

    /// The type that it describes, where each index names the id that the list has there. Asks that the
    /// list has one for its index.
    pub fn resolve(self, ids: &[TypeId]) -> FieldType
        requires { FieldBelow (length ids.now) (field_of self) }
        ensures { result ≡ renamed_field (at ids.now) (field_of self) }
    {
        FieldType {
            element_type: self.element_type.resolve(ids),
            mutable: self.mutable,
        }
    }
}

// Pushes the type that the value describes. Numbers are pushed apart, so that none waits for a reference's type.
#[inline]
fn push_value(types: &mut Vec<ValType>, value: ValRecord, ids: &[TypeId])
    requires room { vec_len types.old < vec_capacity types.old }
    requires names { ValueBelow (length ids.now) (value_of value) }
    ensures items { types.new.items ≡ types.old.items ++ renamed_value (at ids.now) (value_of value) ∷ [] }
    ensures len { vec_len types.new ≡ vec_len types.old + 1 }
    ensures capacity { vec_capacity types.new ≡ vec_capacity types.old }
{
    match value {
        ValRecord::Ref(ty) => types.push_reserved(ValType::Ref(RefType {
            nullable: ty.nullable,
            heap_type: ty.heap_type.resolve(ids),
        })),
        plain => types.push_reserved(plain_apart(plain)),
    }
}

fn has_ref(values: &[ValRecord]) -> bool
    ensures { result ≡ list_any is_ref values.now }
{
    values.iter().any(|value| is_ref(value))
}

// Pushes the type of a number or a vector.
#[inline(always)]
fn push_plain(types: &mut Vec<ValType>, value: ValRecord)
    requires room { vec_len types.old < vec_capacity types.old }
    ensures items { types.new.items ≡ types.old.items ++ plain_of value ∷ [] }
    ensures len { vec_len types.new ≡ vec_len types.old + 1 }
    ensures capacity { vec_capacity types.new ≡ vec_capacity types.old }
{
    // Names what a value type may hold, as the borrow checker asks.
    let _held: Option<(HeapType, RefType)> = None;
    types.push_reserved(plain_value(value));
}

// The types of numbers and vectors. Without a test for references it is one look-up for each, and no jumps.
fn resolve_plain(alloc: Global, values: &[ValRecord]) -> Result<Vec<ValType>, AllocError>
    ensures { IfOk result (λ types. types.items ≡ map plain_of values.now) }
{
    let mut types = Vec::with_capacity(alloc, values.len())?;
    for value in values {
        push_plain(&mut types, *value);
    }
    Ok(types)
}

// The types that the values describe, where each index names the id that the list has there.
fn resolve_values(
    alloc: Global,
    values: &[ValRecord],
    ids: &[TypeId],
) -> Result<Vec<ValType>, AllocError>
    requires { All (ValueBelow (length ids.now)) (map value_of values.now) }
    ensures { IfOk result (λ types. types.items ≡ map (renamed_value (at ids.now)) (map value_of values.now)) }
{
    if !has_ref(values) {
        return resolve_plain(alloc, values);
    }
    let mut types = Vec::with_capacity(alloc, values.len())?;
    for value in values {
        push_value(&mut types, *value, ids);
    }
    Ok(types)
}

// Pushes the type that the field describes.
#[inline]
fn push_field(types: &mut Vec<FieldType>, field: FieldRecord, ids: &[TypeId])
    requires room { vec_len types.old < vec_capacity types.old }
    requires names { FieldBelow (length ids.now) (field_of field) }
    ensures items { types.new.items ≡ types.old.items ++ renamed_field (at ids.now) (field_of field) ∷ [] }
    ensures len { vec_len types.new ≡ vec_len types.old + 1 }
    ensures capacity { vec_capacity types.new ≡ vec_capacity types.old }
{
    let element_type = match field.element_type {
        StorageRecord::Val(ValRecord::Ref(ty)) => StorageType::Val(ValType::Ref(RefType {
            nullable: ty.nullable,
            heap_type: ty.heap_type.resolve(ids),
        })),
        plain => plain.resolve(ids),
    };
    types.push_reserved(FieldType {
        element_type,
        mutable: field.mutable,
    });
}

// The types that the fields describe, where each index names the id that the list has there.
fn resolve_fields(
    alloc: Global,
    fields: &[FieldRecord],
    ids: &[TypeId],
) -> Result<Vec<FieldType>, AllocError>
    requires { All (FieldBelow (length ids.now)) (map field_of fields.now) }
    ensures { IfOk result (λ types. types.items ≡ map (renamed_field (at ids.now)) (map field_of fields.now)) }
{
    let mut types = Vec::with_capacity(alloc, fields.len())?;
    for field in fields {
        push_field(&mut types, *field, ids);
    }
    Ok(types)
}

impl CompositeRecord {
    /// The form that it describes, where each index names the id that the list has there. Asks that the
    /// list has one for each.
    ///
    /// # Errors
    ///
    /// Want of memory.
    pub fn resolve(&self, alloc: Global, ids: &[TypeId]) -> Result<CompositeType, AllocError>
        requires { FormBelow (length ids.now) (record_form self.now) }
        ensures { IfOk result (λ ty. form_of ty ≡ renamed_form (at ids.now) (record_form self.now)) }
    {
        match self {
            CompositeRecord::Function { params, results } => {
                let params = resolve_values(alloc, params.as_slice(), ids)?;
                let results = resolve_values(alloc, results.as_slice(), ids)?;
                Ok(CompositeType::Function(FunctionType::new(params, results)))
            }
            CompositeRecord::Struct { fields } => {
                let fields = resolve_fields(alloc, fields.as_slice(), ids)?;
                Ok(CompositeType::Struct(StructType { fields }))
            }
            CompositeRecord::Array { field } => Ok(CompositeType::Array(ArrayType {
                field: field.resolve(ids),
            })),
        }
    }

    /// An equal form.
    ///
    /// # Errors
    ///
    /// Want of memory.
    pub fn clone(&self) -> Result<Self, AllocError>
        ensures { IfOk result (λ copy. record_form copy ≡ record_form self.now) }
    {
        match self {
            CompositeRecord::Function { params, results } => Ok(CompositeRecord::Function {
                params: params.clone()?,
                results: results.clone()?,
            }),
            CompositeRecord::Struct { fields } => Ok(CompositeRecord::Struct {
                fields: fields.clone()?,
            }),
            CompositeRecord::Array { field } => Ok(CompositeRecord::Array { field: *field }),
        }
    }
}

impl TypeRecord {
    /// An equal record.
    ///
    /// # Errors
    ///
    /// Want of memory.
    pub fn clone(&self) -> Result<Self, AllocError>
        ensures { IfOk result (λ copy. record_kind copy ≡ record_kind self.now) }
    {
        Ok(TypeRecord {
            kind: self.kind.clone()?,
            is_final: self.is_final,
            supertype: self.supertype,
        })
    }
}

impl GroupRecord {
    /// An equal record.
    ///
    /// # Errors
    ///
    /// Want of memory.
    pub fn clone(&self, alloc: Global) -> Result<Self, AllocError>
        ensures { IfOk result (λ copy. type_group copy ≡ type_group self.now) }
    {
        let mut types = Vec::new(alloc);
        for ty in &self.types {
            types.push(ty.clone()?)?;
        }
        Ok(GroupRecord {
            marked: self.marked,
            types,
        })
    }
}
