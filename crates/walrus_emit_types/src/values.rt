//! Value types whose names are indices (Core Specification, binary format: value types).

ghost use Rattle.std.specs.Prelude.{[], ◌∷◌, ◌++◌};
ghost use Rattle.walrus_forms.specs.Records.{field_of, heap_of, ref_of, storage_of, value_of};
ghost use Rattle.walrus_emit_parts.specs.Due.{Writes, written};
ghost use Rattle.walrus_emit_due.specs.Types.{field, heap, mutability, reference, storage, value};

use walrus_emit_parts::{write_byte, write_signed};
use walrus_emit_values::{write_abstract, write_shared};
use walrus_errors::{Form, ModuleError, Result};
use walrus_forms::{FieldRecord, HeapRecord, RefRecord, StorageRecord, ValRecord};

fn write_heap(out: &mut Vec<u8>, ty: HeapRecord) -> Result<()>
    ensures { Writes (heap (heap_of ty)) out.old.items out.new.items result }
{
    match ty {
        HeapRecord::Abstract(ty) => write_abstract(out, ty),
        HeapRecord::Shared(ty) => write_shared(out, ty),
        HeapRecord::Concrete(index) => write_signed(out, i64::from(index)),
        HeapRecord::Exact(_) => {
            let form = Form::ExactType;
            Err(ModuleError::Unsupported { form, offset: None })
        }
    }
}

#[tactic(auto, using(walrus_emit_values::proofs::Lemmas::byte_on, walrus_emit_parts::proofs::Lemmas::refused_front))]
fn write_long(out: &mut Vec<u8>, first: u8, ty: HeapRecord) -> Result<()>
    ensures { Writes (written (first ∷ []) ++ heap (heap_of ty)) out.old.items out.new.items result }
{
    put!(write_byte(out, first));
    write_heap(out, ty)
}

fn write_reference(out: &mut Vec<u8>, ty: RefRecord) -> Result<()>
    ensures { Writes (reference (ref_of ty)) out.old.items out.new.items result }
{
    if !ty.nullable {
        return write_long(out, 0x64, ty.heap_type);
    }
    match ty.heap_type {
        HeapRecord::Abstract(_) => write_heap(out, ty.heap_type),
        HeapRecord::Shared(_) => write_heap(out, ty.heap_type),
        _ => write_long(out, 0x63, ty.heap_type),
    }
}

/// A value type.
pub(crate) fn write_value(out: &mut Vec<u8>, ty: ValRecord) -> Result<()>
    ensures { Writes (value (value_of ty)) out.old.items out.new.items result }
{
    match ty {
        ValRecord::I32 => write_byte(out, 0x7f),
        ValRecord::I64 => write_byte(out, 0x7e),
        ValRecord::F32 => write_byte(out, 0x7d),
        ValRecord::F64 => write_byte(out, 0x7c),
        ValRecord::V128 => write_byte(out, 0x7b),
        ValRecord::Ref(ty) => write_reference(out, ty),
    }
}

fn write_storage(out: &mut Vec<u8>, ty: StorageRecord) -> Result<()>
    ensures { Writes (storage (storage_of ty)) out.old.items out.new.items result }
{
    match ty {
        StorageRecord::Val(ty) => write_value(out, ty),
        StorageRecord::I8 => write_byte(out, 0x78),
        StorageRecord::I16 => write_byte(out, 0x77),
    }
}

fn write_mutable(out: &mut Vec<u8>, mutable: bool) -> Result<()>
    ensures { Writes (mutability mutable) out.old.items out.new.items result }
{
    if mutable {
        write_byte(out, 1)
    } else {
        write_byte(out, 0)
    }
}

/// A field.
#[tactic(auto, using(walrus_emit_parts::proofs::Lemmas::writes_on, walrus_emit_parts::proofs::Lemmas::refused_front))]
pub(crate) fn write_field(out: &mut Vec<u8>, ty: FieldRecord) -> Result<()>
    ensures { Writes (field (field_of ty)) out.old.items out.new.items result }
{
    put!(write_storage(out, ty.element_type));
    write_mutable(out, ty.mutable)
}
