//! Types of instructions and types of operators.
ghost use Rattle.std.specs.Prelude.{◌≡◌, slice_get};
ghost use Rattle.walrus_index_maps.specs.Views.{ids, indices};
ghost use Rattle.walrus_pairing.specs.Answers.{IsValueAnswer};
ghost use Rattle.walrus_pairing.specs.Types.{type_of, written_abstract, written_heap, read_abstract, read_index, read_heap, read_value, named_value};

use crate::error::PairError;
use walrus_arena::TypeId;
use walrus_forms::{AbstractHeapType, HeapType, RefType, ValType};
use walrus_index_maps::{IdsToIndices, IndicesToIds, Space};
use wasm_ref_types as written;
use wasm_ref_types::UnpackedIndex;

// What is written for an abstract heap type.
fn write_abstract(ty: AbstractHeapType) -> written::AbstractHeapType
    ensures { result ≡ written_abstract ty }
{
    match ty {
        AbstractHeapType::Func => written::AbstractHeapType::Func,
        AbstractHeapType::Extern => written::AbstractHeapType::Extern,
        AbstractHeapType::Any => written::AbstractHeapType::Any,
        AbstractHeapType::None => written::AbstractHeapType::None,
        AbstractHeapType::NoExtern => written::AbstractHeapType::NoExtern,
        AbstractHeapType::NoFunc => written::AbstractHeapType::NoFunc,
        AbstractHeapType::Eq => written::AbstractHeapType::Eq,
        AbstractHeapType::Struct => written::AbstractHeapType::Struct,
        AbstractHeapType::Array => written::AbstractHeapType::Array,
        AbstractHeapType::I31 => written::AbstractHeapType::I31,
        AbstractHeapType::Exn => written::AbstractHeapType::Exn,
        AbstractHeapType::NoExn => written::AbstractHeapType::NoExn,
    }
}

// The number of a type.
fn type_number(maps: &IdsToIndices, id: TypeId) -> Result<u32, PairError>
    ensures { result ≡ type_of (indices maps.now).types.number id }
{
    match maps.get_type_index(id) {
        Some(number) => Ok(number),
        None => Err(PairError::Unknown(Space::Type)),
    }
}

/// The heap type of an operator that is written for this one.
///
/// # Errors
///
/// `Unknown` where it names a type without a number.
pub fn write_heap(ty: HeapType, maps: &IdsToIndices) -> Result<written::HeapType, PairError>
    ensures { result ≡ written_heap (indices maps.now).types.number ty }
{
    match ty {
        HeapType::Abstract(ty) => Ok(written::HeapType::Abstract {
            shared: false,
            ty: write_abstract(ty),
        }),
        HeapType::Shared(ty) => Ok(written::HeapType::Abstract {
            shared: true,
            ty: write_abstract(ty),
        }),
        HeapType::Concrete(id) => {
            let number = got!(type_number(maps, id));
            Ok(written::HeapType::Concrete(UnpackedIndex::Module(number)))
        }
        HeapType::Exact(id) => {
            let number = got!(type_number(maps, id));
            Ok(written::HeapType::Exact(UnpackedIndex::Module(number)))
        }
    }
}

/// The value type of a file that is written for this one.
///
/// # Errors
///
/// `Unknown` where it names a type without a number, `TypeIndex` where the number is 2^20 or more.
pub fn write_value(ty: ValType, maps: &IdsToIndices) -> Result<written::ValType, PairError>
    ensures { IsValueAnswer (indices maps.now).types.number ty result }
{
    match ty {
        ValType::I32 => Ok(written::ValType::I32),
        ValType::I64 => Ok(written::ValType::I64),
        ValType::F32 => Ok(written::ValType::F32),
        ValType::F64 => Ok(written::ValType::F64),
        ValType::V128 => Ok(written::ValType::V128),
        ValType::Ref(ty) => {
            let heap_type = write_heap(ty.heap_type, maps)?;
            match written::RefType::new(ty.nullable, heap_type) {
                Some(ty) => Ok(written::ValType::Ref(ty)),
                None => Err(PairError::TypeIndex),
            }
        }
    }
}

// What an abstract heap type is read as.
fn abstract_type(ty: written::AbstractHeapType) -> Result<AbstractHeapType, PairError>
    ensures { result ≡ read_abstract ty }
{
    match ty {
        written::AbstractHeapType::Func => Ok(AbstractHeapType::Func),
        written::AbstractHeapType::Extern => Ok(AbstractHeapType::Extern),
        written::AbstractHeapType::Any => Ok(AbstractHeapType::Any),
        written::AbstractHeapType::None => Ok(AbstractHeapType::None),
        written::AbstractHeapType::NoExtern => Ok(AbstractHeapType::NoExtern),
        written::AbstractHeapType::NoFunc => Ok(AbstractHeapType::NoFunc),
        written::AbstractHeapType::Eq => Ok(AbstractHeapType::Eq),
        written::AbstractHeapType::Struct => Ok(AbstractHeapType::Struct),
        written::AbstractHeapType::Array => Ok(AbstractHeapType::Array),
        written::AbstractHeapType::I31 => Ok(AbstractHeapType::I31),
        written::AbstractHeapType::Exn => Ok(AbstractHeapType::Exn),
        written::AbstractHeapType::NoExn => Ok(AbstractHeapType::NoExn),
        written::AbstractHeapType::Cont => Err(PairError::ContinuationType),
        written::AbstractHeapType::NoCont => Err(PairError::ContinuationType),
    }
}

// The type that an index names.
fn type_at(index: UnpackedIndex, maps: &IndicesToIds) -> Result<TypeId, PairError>
    ensures { result ≡ read_index (slice_get (ids maps.now).types) index }
{
    match index {
        UnpackedIndex::Module(index) => match maps.get_type(index) {
            Ok(id) => Ok(id),
            Err(unknown) => Err(PairError::Unknown(unknown.0)),
        },
        UnpackedIndex::RecGroup(_) => Err(PairError::Unknown(Space::Type)),
        UnpackedIndex::Id(_) => Err(PairError::Unknown(Space::Type)),
    }
}

/// The heap type that one of an operator is read as.
///
/// # Errors
///
/// `Unknown` where it names no type, `ContinuationType`.
pub fn read_heap(ty: written::HeapType, maps: &IndicesToIds) -> Result<HeapType, PairError>
    ensures { result ≡ read_heap (slice_get (ids maps.now).types) ty }
{
    match ty {
        written::HeapType::Abstract { shared: true, ty } => {
            let ty = got!(abstract_type(ty));
            Ok(HeapType::Shared(ty))
        }
        written::HeapType::Abstract { shared: false, ty } => {
            let ty = got!(abstract_type(ty));
            Ok(HeapType::Abstract(ty))
        }
        written::HeapType::Concrete(index) => {
            let id = got!(type_at(index, maps));
            Ok(HeapType::Concrete(id))
        }
        written::HeapType::Exact(index) => {
            let id = got!(type_at(index, maps));
            Ok(HeapType::Exact(id))
        }
    }
}

/// The value type that one of a file is read as.
///
/// # Errors
///
/// `Unknown` where it names no type, `ContinuationType`.
pub fn read_value(ty: written::ValType, maps: &IndicesToIds) -> Result<ValType, PairError>
    ensures { result ≡ read_value (slice_get (ids maps.now).types) ty }
{
    match ty {
        written::ValType::I32 => Ok(ValType::I32),
        written::ValType::I64 => Ok(ValType::I64),
        written::ValType::F32 => Ok(ValType::F32),
        written::ValType::F64 => Ok(ValType::F64),
        written::ValType::V128 => Ok(ValType::V128),
        written::ValType::Ref(ty) => {
            let heap_type = got!(read_heap(ty.heap_type(), maps));
            Ok(ValType::Ref(RefType {
                nullable: ty.is_nullable(),
                heap_type,
            }))
        }
    }
}

/// Each type that a value type of a file names is one of the module's.
///
/// # Errors
///
/// `Unknown` where it names none.
pub(crate) fn named_type(ty: written::ValType, maps: &IndicesToIds) -> Result<(), PairError>
    ensures { result ≡ named_value (slice_get (ids maps.now).types) ty }
{
    match ty {
        written::ValType::Ref(ty) => match ty.heap_type() {
            written::HeapType::Abstract { .. } => Ok(()),
            written::HeapType::Concrete(index) => {
                got!(type_at(index, maps));
                Ok(())
            }
            written::HeapType::Exact(index) => {
                got!(type_at(index, maps));
                Ok(())
            }
        },
        _ => Ok(()),
    }
}
