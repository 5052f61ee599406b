//! Records of forms: each name of a type replaced by its index.
ghost use Rattle.std.specs.Prelude.{◌≡◌, IfOk, map};
ghost use Rattle.walrus_forms.specs.Forms.{form_of};
ghost use Rattle.walrus_forms.specs.Records.{heap_of, ref_of, value_of, storage_of, field_of, record_form};
ghost use Rattle.walrus_forms.specs.Renaming.{renamed_heap, renamed_ref, renamed_value, renamed_storage, renamed_field, renamed_form, index_at};

use crate::composite::CompositeType;
use crate::record::{
    CompositeRecord, FieldRecord, HeapRecord, RefRecord, StorageRecord, ValRecord,
};
use crate::value::{FieldType, HeapType, RefType, StorageType, ValType};
use std::alloc::{AllocError, Global};
use walrus_arena::TypeId;

/// The index that the list has for a type, 0 where it has none.
pub fn index_of(indices: &[Option<u32>], id: TypeId) -> u32
    ensures { result ≡ index_at indices.now id }
{
    match indices.get(id.index()) {
        Some(Some(index)) => *index,
        _ => 0,
    }
}

impl HeapType {
    /// Its record, in which the type that it names has the index that the list has for it, 0 where it has
    /// none.
    pub fn describe(self, indices: &[Option<u32>]) -> HeapRecord
        ensures { heap_of result ≡ renamed_heap (index_at indices.now) self }
    {
        match self {
            HeapType::Abstract(ty) => HeapRecord::Abstract(ty),
            HeapType::Shared(ty) => HeapRecord::Shared(ty),
            HeapType::Concrete(id) => HeapRecord::Concrete(index_of(indices, id)),
            HeapType::Exact(id) => HeapRecord::Exact(index_of(indices, id)),
        }
    }
}

impl RefType {
    /// Its record, in which the type that it names has the index that the list has for it, 0 where it has
    /// none.
    pub fn describe(self, indices: &[Option<u32>]) -> RefRecord
        ensures { ref_of result ≡ renamed_ref (index_at indices.now) self }
    {
        RefRecord {
            nullable: self.nullable,
            heap_type: self.heap_type.describe(indices),
        }
    }
}

impl ValType {
    /// Its record, in which the type that it names has the index that the list has for it, 0 where it has
    /// none.
    pub fn describe(self, indices: &[Option<u32>]) -> ValRecord
        ensures { value_of result ≡ renamed_value (index_at indices.now) self }
    {
        match self {
            ValType::I32 => ValRecord::I32,
            ValType::I64 => ValRecord::I64,
            ValType::F32 => ValRecord::F32,
            ValType::F64 => ValRecord::F64,
            ValType::V128 => ValRecord::V128,
            ValType::Ref(ty) => ValRecord::Ref(ty.describe(indices)),
        }
    }
}

impl StorageType {
    /// Its record, in which the type that it names has the index that the list has for it, 0 where it has
    /// none.
    pub fn describe(self, indices: &[Option<u32>]) -> StorageRecord
        ensures { storage_of result ≡ renamed_storage (index_at indices.now) self }
    {
        match self {
            StorageType::Val(ty) => StorageRecord::Val(ty.describe(indices)),
            StorageType::I8 => StorageRecord::I8,
            StorageType::I16 => StorageRecord::I16,
        }
    }
}

impl FieldType {
    /// Its record, in which the type that it names has the index that the list has for it, 0 where it has
    /// none.
    pub fn describe(self, indices: &[Option<u32>]) -> FieldRecord
        ensures { field_of result ≡ renamed_field (index_at indices.now) self }
    {
        FieldRecord {
            element_type: self.element_type.describe(indices),
            mutable: self.mutable,
        }
    }
}

fn value_records(
    alloc: Global,
    values: &[ValType],
    indices: &[Option<u32>],
) -> Result<Vec<ValRecord>, AllocError>
    ensures { IfOk result (λ records. map value_of records.items ≡ map (renamed_value (index_at indices.now)) values.now) }
{
    let mut records = Vec::with_capacity(alloc, values.len())?;
    for value in values {
        records.push(value.describe(indices))?;
    }
    Ok(records)
}

fn field_records(
    alloc: Global,
    fields: &[FieldType],
    indices: &[Option<u32>],
) -> Result<Vec<FieldRecord>, AllocError>
    ensures { IfOk result (λ records. map field_of records.items ≡ map (renamed_field (index_at indices.now)) fields.now) }
{
    let mut records = Vec::with_capacity(alloc, fields.len())?;
    for field in fields {
        records.push(field.describe(indices))?;
    }
    Ok(records)
}

impl CompositeType {
    /// The record of this form, in which each type is named by the index that the list has for it, 0 where
    /// it has none.
    ///
    /// # Errors
    ///
    /// Want of memory.
    pub fn describe(
        &self,
        alloc: Global,
        indices: &[Option<u32>],
    ) -> Result<CompositeRecord, AllocError>
        ensures { IfOk result (λ ty. record_form ty ≡ renamed_form (index_at indices.now) (form_of self.now)) }
    {
        match self {
            CompositeType::Function(ty) => {
                let params = value_records(alloc, ty.params(), indices)?;
                let results = value_records(alloc, ty.results(), indices)?;
                Ok(CompositeRecord::Function { params, results })
            }
            CompositeType::Struct(ty) => {
                let fields = field_records(alloc, ty.fields.as_slice(), indices)?;
                Ok(CompositeRecord::Struct { fields })
            }
            CompositeType::Array(ty) => Ok(CompositeRecord::Array {
                field: ty.field.describe(indices),
            }),
        }
    }
}
