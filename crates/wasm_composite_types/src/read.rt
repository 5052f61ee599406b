//! Composite types, read from the binary format (Core Specification, binary format, types).

ghost use Rattle.std.specs.Prelude.{◌≡◌, ◌-◌, ◌≤◌, true, false, IfOk, IfErr, map};
ghost use Rattle.wasm_ref_types.specs.wasm_features.Features.{GcTypes, enables, constant, features_of};
ghost use Rattle.wasm_ref_types.specs.wasm_reader.declared.error.ErrorKind.TheVariants.{Feature};
ghost use Rattle.wasm_ref_types.specs.wasm_reader.Cursor.{end_of};
ghost use Rattle.wasm_ref_types.specs.wasm_reader.Reading.{Reads, plain};
ghost use Rattle.wasm_ref_types.specs.wasm_reader.Items.{ReadsUnlessMemory, items_at, seen_items, vec_at};
ghost use Rattle.wasm_composite_types.specs.Readings.{mutable_at, form_after, form_at, composite_after};

use crate::field::{FieldType, StorageType};
use crate::form::{ArrayType, CompositeInnerType, CompositeType, FuncType, StructType};
use crate::list::TypeList;
use std::alloc::Global;
use wasm_ref_types::features::WasmFeatures;
use wasm_ref_types::reader::limits::{
    MAX_WASM_FUNCTION_PARAMS, MAX_WASM_FUNCTION_RETURNS, MAX_WASM_STRUCT_FIELDS,
};
use wasm_ref_types::reader::{BinaryReader, Error, ErrorKind, FromReader, Result};

impl<'a> FromReader<'a> for StorageType {
    ghost use Rattle.wasm_composite_types.specs.declared.field.StorageType.{StorageType};
    ghost use Rattle.wasm_composite_types.specs.Readings.{storage_at};
    ghost use Rattle.wasm_composite_types.specs.Finals.{storage_final};

    ghost Seen = { StorageType };

    ghost seen = { λ ty. ty };

    ghost reading = { storage_at };

    ghost takes_memory = { false };

    #[tactic(auto, unfolding(crate::specs::Readings::storage_at))]
    fn from_reader(alloc: Global, reader: &mut BinaryReader<'a>) -> Result<Self> {
        match reader.peek()? {
            0x78 => {
                reader.read_u8()?;
                Ok(StorageType::I8)
            }
            0x77 => {
                reader.read_u8()?;
                Ok(StorageType::I16)
            }
            _ => Ok(StorageType::Val(reader.read(alloc)?)),
        }
    }

    ghost is_final = { storage_final };
}

// Whether a field can be written. A byte other than 00 and 01 is `BadByte` at its place.
#[tactic(auto, unfolding(crate::specs::Readings::mutable_at))]
fn read_mutability(reader: &mut BinaryReader<'_>) -> Result<bool>
    ensures { Reads mutable_at plain reader.old reader.new result }
{
    let offset = reader.original_position();
    match reader.read_u8()? {
        0 => Ok(false),
        1 => Ok(true),
        _ => Err(Error::new(ErrorKind::BadByte, offset)),
    }
}

impl<'a> FromReader<'a> for FieldType {
    ghost use Rattle.wasm_composite_types.specs.declared.field.FieldType.{FieldType};
    ghost use Rattle.wasm_composite_types.specs.Readings.{field_at};
    ghost use Rattle.wasm_composite_types.specs.Finals.{field_final};

    ghost Seen = { FieldType };

    ghost seen = { λ ty. ty };

    ghost reading = { field_at };

    ghost takes_memory = { false };

    #[tactic(auto, unfolding(crate::specs::Readings::field_at))]
    fn from_reader(alloc: Global, reader: &mut BinaryReader<'a>) -> Result<Self> {
        let element_type = reader.read(alloc)?;
        let mutable = read_mutability(reader)?;
        Ok(FieldType {
            element_type,
            mutable,
        })
    }

    ghost is_final = { field_final };
}

// The most items that a list has room for at first.
const ROOM: usize = 16;

// So many items. Most lists are short, and get their room at once; a greater count reserves no more.
#[inline(always)]
fn read_items<'a, T: FromReader<'a>>(
    alloc: Global,
    reader: &mut BinaryReader<'a>,
    count: usize,
) -> Result<Vec<T>>
    ensures { ReadsUnlessMemory (items_at (T.reading reader.old.window.features) count) (seen_items T.seen) reader.old reader.new result }
{
    let Ok(mut items) = Vec::with_capacity(alloc, count.min(ROOM)) else {
        return Err(reader.out_of_memory());
    };
    for _ in 0..count {
        let item = T::from_reader(alloc, reader)?;
        if items.push(item).is_err() {
            return Err(reader.out_of_memory());
        }
    }
    Ok(items)
}

#[inline(always)]
#[tactic(auto, unfolding(wasm_reader::specs::Items::vec_at))]
fn read_list<'a, T: FromReader<'a>>(
    alloc: Global,
    reader: &mut BinaryReader<'a>,
    limit: usize,
) -> Result<TypeList<T>>
    ensures { ReadsUnlessMemory (vec_at limit (T.reading reader.old.window.features)) (map T.seen) reader.old reader.new result }
{
    let count = reader.read_size(limit)?;
    let items = read_items(alloc, reader, count)?;
    Ok(TypeList::from_vec(items))
}

impl<'a> FromReader<'a> for FuncType {
    ghost use Rattle.wasm_composite_types.specs.declared.form.FuncType.{FuncType};
    ghost use Rattle.wasm_composite_types.specs.Readings.{func_at};
    ghost use Rattle.wasm_composite_types.specs.Finals.{func_final};

    ghost Seen = { FuncType };

    ghost seen = { λ ty. ty };

    ghost reading = { func_at };

    ghost takes_memory = { true };

    #[tactic(auto, using(crate::proofs::Items::same_items), unfolding(crate::specs::Readings::func_at))]
    fn from_reader(alloc: Global, reader: &mut BinaryReader<'a>) -> Result<Self> {
        let params = read_list(alloc, reader, MAX_WASM_FUNCTION_PARAMS)?;
        let results = read_list(alloc, reader, MAX_WASM_FUNCTION_RETURNS)?;
        Ok(FuncType { params, results })
    }

    ghost is_final = { func_final };
}

impl<'a> FromReader<'a> for ArrayType {
    ghost use Rattle.wasm_composite_types.specs.declared.form.ArrayType.{ArrayType};
    ghost use Rattle.wasm_composite_types.specs.Readings.{array_at};
    ghost use Rattle.wasm_composite_types.specs.Finals.{array_final};

    ghost Seen = { ArrayType };

    ghost seen = { λ ty. ty };

    ghost reading = { array_at };

    ghost takes_memory = { false };

    #[tactic(auto, unfolding(crate::specs::Readings::array_at))]
    fn from_reader(alloc: Global, reader: &mut BinaryReader<'a>) -> Result<Self> {
        Ok(ArrayType(reader.read(alloc)?))
    }

    ghost is_final = { array_final };
}

impl<'a> FromReader<'a> for StructType {
    ghost use Rattle.wasm_composite_types.specs.declared.form.StructType.{StructType};
    ghost use Rattle.wasm_composite_types.specs.Readings.{struct_at};
    ghost use Rattle.wasm_composite_types.specs.Finals.{struct_final};

    ghost Seen = { StructType };

    ghost seen = { λ ty. ty };

    ghost reading = { struct_at };

    ghost takes_memory = { true };

    #[tactic(auto, using(crate::proofs::Items::same_items), unfolding(crate::specs::Readings::struct_at))]
    fn from_reader(alloc: Global, reader: &mut BinaryReader<'a>) -> Result<Self> {
        let fields = read_list(alloc, reader, MAX_WASM_STRUCT_FIELDS)?;
        Ok(StructType { fields })
    }

    ghost is_final = { struct_final };
}

// Asks that a form's feature is on: else `Feature` at the form's offset.
fn expect_feature(on: bool, feature: WasmFeatures, offset: u64) -> Result<()>
    ensures on { IfOk result (λ _. on ≡ true) }
    ensures off { IfErr result (λ e. (on ≡ false) × (e.kind ≡ Feature feature) × (e.offset ≡ offset)) }
{
    if !on {
        return Err(Error::new(ErrorKind::Feature(feature), offset));
    }
    Ok(())
}

/// Asks that the types of garbage collection are on.
///
/// # Errors
///
/// `Feature` at this offset, that of the first byte of a form that needs them.
pub fn expect_gc(reader: &BinaryReader<'_>, offset: u64) -> Result<()>
    ensures on { IfOk result (λ _. enables reader.now.window.features GcTypes ≡ true) }
    ensures off { IfErr result (λ e. (enables reader.now.window.features GcTypes ≡ false)
        × (e.kind ≡ Feature (features_of (constant GcTypes))) × (e.offset ≡ offset)) }
{
    expect_feature(reader.features().gc_types(), WasmFeatures::GC_TYPES, offset)
}

impl CompositeInnerType {
    // The form that begins with this byte, which stands at this offset.
    #[inline(always)]
    #[tactic(auto, unfolding(crate::specs::Readings::form_after))]
    fn read_after(
        alloc: Global,
        reader: &mut BinaryReader<'_>,
        byte: u8,
        offset: u64,
    ) -> Result<Self>
        requires { offset ≤ end_of reader.old }
        ensures { ReadsUnlessMemory (form_after reader.old.window.features byte (end_of reader.old - offset)) plain reader.old reader.new result }
    {
        match byte {
            0x60 => Ok(CompositeInnerType::Func(reader.read(alloc)?)),
            0x5f => {
                expect_gc(reader, offset)?;
                Ok(CompositeInnerType::Struct(reader.read(alloc)?))
            }
            0x5e => {
                expect_gc(reader, offset)?;
                Ok(CompositeInnerType::Array(reader.read(alloc)?))
            }
            _ => Err(Error::new(ErrorKind::BadByte, offset)),
        }
    }

    #[tactic(auto, unfolding(crate::specs::Readings::form_at))]
    fn read(alloc: Global, reader: &mut BinaryReader<'_>) -> Result<Self>
        ensures { ReadsUnlessMemory (form_at reader.old.window.features) plain reader.old reader.new result }
    {
        let offset = reader.original_position();
        let byte = reader.read_u8()?;
        CompositeInnerType::read_after(alloc, reader, byte, offset)
    }
}

/// The composite type that begins with this byte, which was read before, at this offset.
///
/// # Errors
///
/// Those of its bytes, and want of memory.
#[inline(always)]
#[tactic(auto, unfolding(crate::specs::Readings::composite_after))]
pub fn read_composite_after(
    alloc: Global,
    reader: &mut BinaryReader<'_>,
    byte: u8,
    offset: u64,
) -> Result<CompositeType>
    requires { offset ≤ end_of reader.old }
    ensures { ReadsUnlessMemory (composite_after reader.old.window.features byte (end_of reader.old - offset)) plain reader.old reader.new result }
{
    if byte == 0x65 {
        let on = reader.features().shared_everything_threads();
        expect_feature(on, WasmFeatures::SHARED_EVERYTHING_THREADS, offset)?;
        let inner = CompositeInnerType::read(alloc, reader)?;
        return Ok(CompositeType {
            inner,
            shared: true,
        });
    }
    let inner = CompositeInnerType::read_after(alloc, reader, byte, offset)?;
    Ok(CompositeType {
        inner,
        shared: false,
    })
}

impl<'a> FromReader<'a> for CompositeType {
    ghost use Rattle.wasm_composite_types.specs.declared.form.CompositeType.{CompositeType};
    ghost use Rattle.wasm_composite_types.specs.Readings.{composite_at};
    ghost use Rattle.wasm_composite_types.specs.Finals.{composite_final};

    ghost Seen = { CompositeType };

    ghost seen = { λ ty. ty };

    ghost reading = { composite_at };

    ghost takes_memory = { true };

    #[tactic(auto, unfolding(crate::specs::Readings::composite_at))]
    fn from_reader(alloc: Global, reader: &mut BinaryReader<'a>) -> Result<Self> {
        let offset = reader.original_position();
        let byte = reader.read_u8()?;
        read_composite_after(alloc, reader, byte, offset)
    }

    ghost is_final = { composite_final };
}
