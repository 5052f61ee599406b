//! Indices and types.

ghost use Rattle.std.specs.Prelude.{◌≡◌, [], ◌∷◌, ◌++◌};
ghost use Rattle.wasm_operators.specs.Bytes.{abstract_code};
ghost use Rattle.wasm_grammar.specs.TypeWords.{abstract_from, heap_from, ref_from, value_from};
ghost use Rattle.walrus_index_maps.specs.Views.{indices};
ghost use Rattle.walrus_emit_parts.specs.Due.{Writes, written};
ghost use Rattle.walrus_module_items.specs.Words.{own_heap};
ghost use Rattle.walrus_emit_due.specs.Values.{heap, index, reference, reference_parts, signed_index, value};

use walrus_emit_parts::{write_byte, write_bytes, write_number, write_signed};
use walrus_errors::{ModuleError, Result};
use walrus_forms::{AbstractHeapType, HeapType, RefType, ValType};
use walrus_index_maps::IdsToIndices;
use wasm_formats::{Form, Space};

/// The number that an id of a space has.
///
/// # Errors
///
/// `DeadReference` where it has none; want of memory. What was there stands at the front, here and below.
pub fn write_index(out: &mut Vec<u8>, space: Space, number: Option<u32>) -> Result<()>
    ensures { Writes (index space number) out.old.items out.new.items result }
{
    match number {
        Some(n) => write_number(out, u64::from(n)),
        None => Err(ModuleError::DeadReference { space }),
    }
}

// The same as a signed number.
fn write_signed_index(out: &mut Vec<u8>, number: Option<u32>) -> Result<()>
    ensures { Writes (signed_index number) out.old.items out.new.items result }
{
    match number {
        Some(n) => write_signed(out, i64::from(n)),
        None => Err(ModuleError::DeadReference { space: Space::Type }),
    }
}

// The byte of an abstract heap type.
fn code(ty: AbstractHeapType) -> u8
    ensures { result ≡ abstract_code (abstract_from ty) }
{
    match ty {
        AbstractHeapType::Func => 0x70,
        AbstractHeapType::Extern => 0x6f,
        AbstractHeapType::Any => 0x6e,
        AbstractHeapType::None => 0x71,
        AbstractHeapType::NoExtern => 0x72,
        AbstractHeapType::NoFunc => 0x73,
        AbstractHeapType::Eq => 0x6d,
        AbstractHeapType::Struct => 0x6b,
        AbstractHeapType::Array => 0x6a,
        AbstractHeapType::I31 => 0x6c,
        AbstractHeapType::Exn => 0x69,
        AbstractHeapType::NoExn => 0x74,
    }
}

/// An abstract heap type.
///
/// # Errors
///
/// Want of memory.
pub fn write_abstract(out: &mut Vec<u8>, ty: AbstractHeapType) -> Result<()>
    ensures { Writes (written (abstract_code (abstract_from ty) ∷ [])) out.old.items out.new.items result }
{
    write_byte(out, code(ty))
}

/// An abstract heap type that is shared.
///
/// # Errors
///
/// Want of memory.
pub fn write_shared(out: &mut Vec<u8>, ty: AbstractHeapType) -> Result<()>
    ensures { Writes (written (0x65 ∷ abstract_code (abstract_from ty) ∷ [])) out.old.items out.new.items result }
{
    write_bytes(out, &[0x65, code(ty)])
}

/// A heap type.
///
/// # Errors
///
/// Want of memory; `DeadReference` of types; `Unsupported` of exact types, here and below.
pub fn write_heap(out: &mut Vec<u8>, ty: HeapType, maps: &IdsToIndices) -> Result<()>
    ensures { Writes (heap (indices maps.now).types.number (heap_from ty)) out.old.items out.new.items result }
{
    match ty {
        HeapType::Abstract(kind) => write_byte(out, code(kind)),
        HeapType::Shared(kind) => write_shared(out, kind),
        HeapType::Concrete(id) => write_signed_index(out, maps.get_type_index(id)),
        HeapType::Exact(_) => {
            let form = Form::ExactType;
            Err(ModuleError::Unsupported { form, offset: None })
        }
    }
}

/// A heap type, where each id is its own number.
///
/// # Errors
///
/// Those of a heap type.
pub fn write_own_heap(out: &mut Vec<u8>, ty: HeapType, maps: &IdsToIndices) -> Result<()>
    ensures { Writes (heap (indices maps.now).types.number (own_heap ty)) out.old.items out.new.items result }
{
    write_heap(out, ty, maps)
}

#[tactic(auto, using(crate::proofs::Lemmas::byte_on, walrus_emit_parts::proofs::Lemmas::refused_front))]
fn write_long(out: &mut Vec<u8>, first: u8, ty: HeapType, maps: &IdsToIndices) -> Result<()>
    ensures { Writes (written (first ∷ []) ++ heap (indices maps.now).types.number (heap_from ty)) out.old.items out.new.items result }
{
    put!(write_byte(out, first));
    write_heap(out, ty, maps)
}

// Its heap type alone, where that is abstract and null is a value.
fn write_reference_parts(
    out: &mut Vec<u8>,
    nullable: bool,
    ty: HeapType,
    maps: &IdsToIndices,
) -> Result<()>
    ensures { Writes (reference_parts (indices maps.now).types.number nullable (heap_from ty)) out.old.items out.new.items result }
{
    if !nullable {
        return write_long(out, 0x64, ty, maps);
    }
    match ty {
        HeapType::Abstract(_) => write_heap(out, ty, maps),
        HeapType::Shared(_) => write_heap(out, ty, maps),
        _ => write_long(out, 0x63, ty, maps),
    }
}

/// A reference type.
///
/// # Errors
///
/// Those of a heap type.
pub fn write_reference(out: &mut Vec<u8>, ty: RefType, maps: &IdsToIndices) -> Result<()>
    ensures { Writes (reference (indices maps.now).types.number (ref_from ty)) out.old.items out.new.items result }
{
    write_reference_parts(out, ty.nullable, ty.heap_type, maps)
}

/// A value type.
///
/// # Errors
///
/// Those of a heap type.
pub fn write_value(out: &mut Vec<u8>, ty: ValType, maps: &IdsToIndices) -> Result<()>
    ensures { Writes (value (indices maps.now).types.number (value_from ty)) out.old.items out.new.items result }
{
    match ty {
        ValType::I32 => write_byte(out, 0x7f),
        ValType::I64 => write_byte(out, 0x7e),
        ValType::F32 => write_byte(out, 0x7d),
        ValType::F64 => write_byte(out, 0x7c),
        ValType::V128 => write_byte(out, 0x7b),
        ValType::Ref(ty) => write_reference(out, ty, maps),
    }
}
