//! Types of globals, tables and elements (Core Specification, reference types, value types).

ghost use Rattle.std.specs.Prelude.{◌≡◌};
ghost use Rattle.walrus_sections_into.specs.walrus_forms.Records.{heap_of, ref_of, value_of};
ghost use Rattle.walrus_sections_into.specs.walrus_index_maps.Views.{ids};
ghost use Rattle.walrus_sections_into.specs.Becomes.{look_of};
ghost use Rattle.walrus_tables_into.specs.Types.{heap_in, ref_in, value_in};

use walrus_sections_into::forms::{HeapRecord, HeapType, RefRecord, RefType, ValRecord, ValType};
use walrus_sections_into::index_maps::IndicesToIds;
use walrus_sections_into::{IntoError, type_id};

// What a reference points to.
fn read_heap(ty: HeapRecord, maps: &IndicesToIds) -> Result<HeapType, IntoError>
    ensures { result ≡ heap_in (look_of (ids maps.now)) (heap_of ty) }
{
    match ty {
        HeapRecord::Abstract(kind) => Ok(HeapType::Abstract(kind)),
        HeapRecord::Shared(kind) => Ok(HeapType::Shared(kind)),
        HeapRecord::Concrete(number) => {
            let id = type_id(number, maps)?;
            Ok(HeapType::Concrete(id))
        }
        HeapRecord::Exact(number) => {
            let id = type_id(number, maps)?;
            Ok(HeapType::Exact(id))
        }
    }
}

/// The reference type that was read, the type that it names by its id; `Unknown` where it names none.
pub fn read_ref(ty: RefRecord, maps: &IndicesToIds) -> Result<RefType, IntoError>
    ensures { result ≡ ref_in (look_of (ids maps.now)) (ref_of ty) }
{
    let heap_type = read_heap(ty.heap_type, maps)?;
    Ok(RefType {
        nullable: ty.nullable,
        heap_type,
    })
}

/// The value type that was read, the type that it names by its id; `Unknown` where it names none.
pub fn read_value(ty: ValRecord, maps: &IndicesToIds) -> Result<ValType, IntoError>
    ensures { result ≡ value_in (look_of (ids maps.now)) (value_of ty) }
{
    match ty {
        ValRecord::I32 => Ok(ValType::I32),
        ValRecord::I64 => Ok(ValType::I64),
        ValRecord::F32 => Ok(ValType::F32),
        ValRecord::F64 => Ok(ValType::F64),
        ValRecord::V128 => Ok(ValType::V128),
        ValRecord::Ref(ty) => {
            let ty = read_ref(ty, maps)?;
            Ok(ValType::Ref(ty))
        }
    }
}
