//! Value types and reference types, whose names are indices of the file.

ghost use Rattle.std.specs.Prelude.{◌≡◌, option_map};
ghost use Rattle.wasm_grammar.specs.wasm_formats.declared.fault.Space.TheVariants as spaces;
ghost use Rattle.wasm_grammar.specs.wasm_formats.Stops.{Index};
ghost use Rattle.walrus_forms.specs.Records.{heap_of as heap_told, ref_of as ref_told, value_of as value_told};
ghost use Rattle.wasm_grammar.specs.TypeWords.{abstract_of, heap_of, ref_of, value_of};
ghost use Rattle.wasm_grammar.specs.Values.{must, named_below, ref_type, value_type};
ghost use Rattle.walrus_section_reader.specs.Parses.{ParsesExactly};
ghost use Rattle.walrus_section_values.specs.Plain.{plain_of};

use std::alloc::Global;
use walrus_forms::{AbstractHeapType, HeapRecord, RefRecord, ValRecord};
use walrus_section_reader::{Fault, FaultKind, Form, Result, Space};
use wasm_reader::{BinaryReader, FromReader};
use wasm_ref_types::{AbstractHeapType as ReadAbstract, HeapType, RefType, UnpackedIndex, ValType};

// The abstract type that was read, where modules of this project have it.
fn abstract_type(ty: ReadAbstract) -> Option<AbstractHeapType>
    ensures { result ≡ abstract_of ty }
{
    match ty {
        ReadAbstract::Func => Some(AbstractHeapType::Func),
        ReadAbstract::Extern => Some(AbstractHeapType::Extern),
        ReadAbstract::Any => Some(AbstractHeapType::Any),
        ReadAbstract::None => Some(AbstractHeapType::None),
        ReadAbstract::NoExtern => Some(AbstractHeapType::NoExtern),
        ReadAbstract::NoFunc => Some(AbstractHeapType::NoFunc),
        ReadAbstract::Eq => Some(AbstractHeapType::Eq),
        ReadAbstract::Struct => Some(AbstractHeapType::Struct),
        ReadAbstract::Array => Some(AbstractHeapType::Array),
        ReadAbstract::I31 => Some(AbstractHeapType::I31),
        ReadAbstract::Exn => Some(AbstractHeapType::Exn),
        ReadAbstract::NoExn => Some(AbstractHeapType::NoExn),
        ReadAbstract::Cont => None,
        ReadAbstract::NoCont => None,
    }
}

/// The heap type that was read, where modules of this project have it: continuations have no place there.
pub fn heap_record(ty: HeapType) -> Option<HeapRecord>
    ensures { option_map heap_told result ≡ heap_of ty }
{
    match ty {
        HeapType::Abstract { shared: true, ty } => match abstract_type(ty) {
            Some(ty) => Some(HeapRecord::Shared(ty)),
            None => None,
        },
        HeapType::Abstract { shared: false, ty } => match abstract_type(ty) {
            Some(ty) => Some(HeapRecord::Abstract(ty)),
            None => None,
        },
        HeapType::Concrete(UnpackedIndex::Module(index)) => Some(HeapRecord::Concrete(index)),
        HeapType::Concrete(UnpackedIndex::RecGroup(_)) => None,
        HeapType::Concrete(UnpackedIndex::Id(_)) => None,
        HeapType::Exact(UnpackedIndex::Module(index)) => Some(HeapRecord::Exact(index)),
        HeapType::Exact(UnpackedIndex::RecGroup(_)) => None,
        HeapType::Exact(UnpackedIndex::Id(_)) => None,
    }
}

/// The reference type that was read, where modules of this project have it.
pub fn ref_record(ty: RefType) -> Option<RefRecord>
    ensures { option_map ref_told result ≡ ref_of ty }
{
    match heap_record(ty.heap_type()) {
        Some(heap_type) => Some(RefRecord {
            nullable: ty.is_nullable(),
            heap_type,
        }),
        None => None,
    }
}

/// The value type that was read, where modules of this project have it.
pub fn value_record(ty: ValType) -> Option<ValRecord>
    ensures { option_map value_told result ≡ value_of ty }
{
    match ty {
        ValType::Ref(ty) => match ref_record(ty) {
            Some(ty) => Some(ValRecord::Ref(ty)),
            None => None,
        },
        plain => Some(plain_apart(plain)),
    }
}

/// The type of a number or a vector that was read. A reference type is taken for a vector's.
#[inline(always)]
pub fn plain_record(ty: ValType) -> ValRecord
    ensures { value_told result ≡ plain_of ty }
{
    match ty {
        ValType::I32 => ValRecord::I32,
        ValType::I64 => ValRecord::I64,
        ValType::F32 => ValRecord::F32,
        ValType::F64 => ValRecord::F64,
        ValType::V128 => ValRecord::V128,
        ValType::Ref(_) => ValRecord::V128,
    }
}

// The same, apart: beside a test for a reference type it would be a jump for each type, not one look-up.
#[inline(never)]
fn plain_apart(ty: ValType) -> ValRecord
    ensures { value_told result ≡ plain_of ty }
{
    plain_record(ty)
}

/// Whether the type that is named, if one is, is one of so many.
pub fn is_named_below(types: usize, name: Option<u32>) -> bool
    ensures { named_below types name ≡ must result (Index spaces.Type) }
{
    match name {
        Some(index) => (index as usize) < types,
        None => true,
    }
}

/// A reference type whose names are of so many types; `Index` at the first byte where it names another.
pub fn read_ref_type(
    alloc: Global,
    types: usize,
    reader: &mut BinaryReader<'_>,
) -> Result<RefRecord>
    ensures { ParsesExactly (ref_type reader.old.window.features types).parse ref_told reader.old reader.new result }
{
    let offset = reader.original_position();
    let ty = RefType::from_reader(alloc, reader)?;
    let Some(record) = ref_record(ty) else {
        let kind = FaultKind::Unsupported(Form::SharedType);
        return Err(Fault::new(kind, offset));
    };
    if !is_named_below(types, record.type_index()) {
        return Err(Fault::new(FaultKind::Index(Space::Type), offset));
    }
    Ok(record)
}

/// A value type whose names are of so many types; `Index` at the first byte where it names another.
pub fn read_value_type(
    alloc: Global,
    types: usize,
    reader: &mut BinaryReader<'_>,
) -> Result<ValRecord>
    ensures { ParsesExactly (value_type reader.old.window.features types).parse value_told reader.old reader.new result }
{
    let offset = reader.original_position();
    let ty = ValType::from_reader(alloc, reader)?;
    let Some(record) = value_record(ty) else {
        let kind = FaultKind::Unsupported(Form::SharedType);
        return Err(Fault::new(kind, offset));
    };
    if !is_named_below(types, record.type_index()) {
        return Err(Fault::new(FaultKind::Index(Space::Type), offset));
    }
    Ok(record)
}
