//! Types are written (Core Specification, binary format: types).

ghost use Rattle.std.specs.Prelude.{◌≡◌, ◌∷◌};
ghost use Rattle.walrus_operators.specs.Appended.{Appends};
ghost use Rattle.wasm_operators.specs.Bytes.{abstract_code, heap_bytes, reference_parts, reference_bytes, value_bytes, block_bytes};

use std::alloc::AllocError;
use wasm_operators::{BlockType, write_byte, write_bytes, write_signed};
use wasm_ref_types::{AbstractHeapType, HeapType, RefType, UnpackedIndex, ValType};

fn abstract_code(ty: AbstractHeapType) -> u8
    ensures { result ≡ abstract_code ty }
{
    match ty {
        AbstractHeapType::Func => 0x70,
        AbstractHeapType::Extern => 0x6f,
        AbstractHeapType::Any => 0x6e,
        AbstractHeapType::None => 0x71,
        AbstractHeapType::NoExtern => 0x72,
        AbstractHeapType::NoFunc => 0x73,
        AbstractHeapType::Eq => 0x6d,
        AbstractHeapType::Struct => 0x6b,
        AbstractHeapType::Array => 0x6a,
        AbstractHeapType::I31 => 0x6c,
        AbstractHeapType::Exn => 0x69,
        AbstractHeapType::NoExn => 0x74,
        AbstractHeapType::Cont => 0x68,
        AbstractHeapType::NoCont => 0x75,
    }
}

#[tactic(auto, using(crate::proofs::Appends::nothing))]
pub(crate) fn write_heap_type(out: &mut Vec<u8>, ty: HeapType) -> Result<(), AllocError>
    ensures { Appends (heap_bytes ty) out.old.items out.new.items result }
{
    match ty {
        HeapType::Abstract { shared: false, ty } => write_byte(out, abstract_code(ty)),
        HeapType::Abstract { shared: true, ty } => write_bytes(out, &[0x65, abstract_code(ty)]),
        HeapType::Concrete(UnpackedIndex::Module(index)) => write_signed(out, i64::from(index)),
        _ => Ok(()),
    }
}

fn write_reference_type(out: &mut Vec<u8>, ty: RefType) -> Result<(), AllocError>
    ensures { Appends (reference_bytes ty) out.old.items out.new.items result }
{
    write_reference(out, ty.is_nullable(), ty.heap_type())
}

// Its heap type alone, where that is abstract and null is a value.
fn write_reference(out: &mut Vec<u8>, nullable: bool, heap_type: HeapType) -> Result<(), AllocError>
    ensures { Appends (reference_parts nullable heap_type) out.old.items out.new.items result }
{
    if !nullable {
        return write_long(out, 0x64, heap_type);
    }
    match heap_type {
        HeapType::Abstract { .. } => write_heap_type(out, heap_type),
        _ => write_long(out, 0x63, heap_type),
    }
}

#[tactic(auto, using(crate::proofs::Appends::appends_on))]
fn write_long(out: &mut Vec<u8>, first: u8, heap_type: HeapType) -> Result<(), AllocError>
    ensures { Appends (first ∷ heap_bytes heap_type) out.old.items out.new.items result }
{
    put!(write_byte(out, first));
    write_heap_type(out, heap_type)
}

/// Puts a value type behind the bytes, in its shortest spelling.
///
/// # Errors
///
/// Want of memory. What was there stands at the front.
pub fn write_value_type(out: &mut Vec<u8>, ty: ValType) -> Result<(), AllocError>
    ensures { Appends (value_bytes ty) out.old.items out.new.items result }
{
    let code = match ty {
        ValType::I32 => 0x7f,
        ValType::I64 => 0x7e,
        ValType::F32 => 0x7d,
        ValType::F64 => 0x7c,
        ValType::V128 => 0x7b,
        ValType::Ref(ty) => return write_reference_type(out, ty),
    };
    write_byte(out, code)
}

/// Puts the type of a block behind the bytes, in its shortest spelling.
///
/// # Errors
///
/// Want of memory. What was there stands at the front.
#[inline(always)]
pub fn write_block_type(out: &mut Vec<u8>, ty: BlockType) -> Result<(), AllocError>
    ensures { Appends (block_bytes ty) out.old.items out.new.items result }
{
    match ty {
        BlockType::Empty => write_byte(out, 0x40),
        BlockType::Value(ty) => write_value_type(out, ty),
        BlockType::Type(index) => write_signed(out, i64::from(index)),
    }
}
