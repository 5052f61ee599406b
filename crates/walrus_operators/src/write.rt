//! Immediates are written.

ghost use Rattle.std.specs.Prelude.{[], ◌∷◌, ◌++◌};
ghost use Rattle.walrus_operators.specs.Immediates.{items_of};
ghost use Rattle.walrus_operators.specs.Appended.{Appends, AppendsItems};
ghost use Rattle.walrus_operators.specs.wasm_operators.Items as items;
ghost use Rattle.wasm_operators.specs.Bytes.{access_bytes, clause_bytes, unsigned_bytes, value_bytes, vec_bytes};

use crate::immediates::Immediates;
use crate::write_types::{write_block_type, write_heap_type, write_value_type};
use std::alloc::AllocError;
use wasm_operators::{
    BlockType, Clause, MemoryAccess, write_bits32, write_bits64, write_byte, write_bytes,
    write_signed, write_unsigned,
};
use wasm_ref_types::{HeapType, ValType};

/// Puts an index, or another u32, behind the bytes, in its shortest spelling.
///
/// # Errors
///
/// Want of memory. What was there stands at the front, here and below.
#[inline]
pub fn write_index(out: &mut Vec<u8>, n: u32) -> Result<(), AllocError>
    ensures { Appends (unsigned_bytes n) out.old.items out.new.items result }
{
    write_unsigned(out, u64::from(n))
}

// Two numbers.
#[tactic(auto, using(crate::proofs::Appends::appends_on, crate::proofs::Keeps::keeps_on, std::proofs::lemmas::List::append_assoc))]
fn write_two(out: &mut Vec<u8>, first: u32, second: u32) -> Result<(), AllocError>
    ensures { Appends (unsigned_bytes first ++ unsigned_bytes second) out.old.items out.new.items result }
{
    put!(write_index(out, first));
    write_index(out, second)
}

/// Puts an access to memory behind the bytes, in its shortest spelling: the memory's index stands only where it isn't 0.
///
/// # Errors
///
/// Want of memory.
#[inline]
#[tactic(auto, using(crate::proofs::Appends::appends_on, crate::proofs::Keeps::keeps_on, std::proofs::lemmas::List::append_assoc))]
pub fn write_access(out: &mut Vec<u8>, access: MemoryAccess) -> Result<(), AllocError>
    ensures { Appends (access_bytes access) out.old.items out.new.items result }
{
    if access.memory == 0 {
        put!(write_index(out, access.align));
        return write_unsigned(out, access.offset);
    }
    put!(write_unsigned(out, u64::from(access.align) + 64));
    put!(write_index(out, access.memory));
    write_unsigned(out, access.offset)
}

#[tactic(auto, using(crate::proofs::Appends::appends_on, crate::proofs::Keeps::keeps_on, std::proofs::lemmas::List::append_assoc))]
fn write_clause(out: &mut Vec<u8>, clause: Clause) -> Result<(), AllocError>
    ensures { Appends (clause_bytes clause) out.old.items out.new.items result }
{
    match clause {
        Clause::Catch { tag, label } => {
            put!(write_byte(out, 0x00));
            write_two(out, tag, label)
        }
        Clause::CatchRef { tag, label } => {
            put!(write_byte(out, 0x01));
            write_two(out, tag, label)
        }
        Clause::CatchAll { label } => {
            put!(write_byte(out, 0x02));
            write_index(out, label)
        }
        Clause::CatchAllRef { label } => {
            put!(write_byte(out, 0x03));
            write_index(out, label)
        }
    }
}

#[tactic(auto, using(crate::proofs::Keeps::keeps_on, std::proofs::lemmas::List::append_assoc))]
fn write_labels(out: &mut Vec<u8>, labels: &[u32]) -> Result<(), AllocError>
    ensures { Appends (vec_bytes unsigned_bytes labels.now) out.old.items out.new.items result }
{
    write_unsigned(out, labels.len() as u64)?;
    for &label in labels {
        write_index(out, label)?;
    }
    Ok(())
}

#[tactic(auto, using(crate::proofs::Keeps::keeps_on, std::proofs::lemmas::List::append_assoc))]
fn write_values(out: &mut Vec<u8>, types: &[ValType]) -> Result<(), AllocError>
    ensures { Appends (vec_bytes value_bytes types.now) out.old.items out.new.items result }
{
    write_unsigned(out, types.len() as u64)?;
    for &ty in types {
        write_value_type(out, ty)?;
    }
    Ok(())
}

#[tactic(auto, using(crate::proofs::Keeps::keeps_on, std::proofs::lemmas::List::append_assoc))]
fn write_clauses(out: &mut Vec<u8>, clauses: &[Clause]) -> Result<(), AllocError>
    ensures { Appends (vec_bytes clause_bytes clauses.now) out.old.items out.new.items result }
{
    write_unsigned(out, clauses.len() as u64)?;
    for &clause in clauses {
        write_clause(out, clause)?;
    }
    Ok(())
}

#[tactic(auto, using(crate::proofs::Appends::then_written, crate::proofs::Keeps::keeps_on))]
fn write_try_table(out: &mut Vec<u8>, ty: BlockType, clauses: &[Clause]) -> Result<(), AllocError>
    ensures { AppendsItems (items.Block ty ∷ items.ManyClauses clauses.now ∷ []) out.old.items out.new.items result }
{
    put!(write_block_type(out, ty));
    write_clauses(out, clauses)
}

#[tactic(auto, using(crate::proofs::Appends::then_written, crate::proofs::Keeps::keeps_on))]
fn write_branch_table(out: &mut Vec<u8>, labels: &[u32], otherwise: u32) -> Result<(), AllocError>
    ensures { AppendsItems (items.ManyLabels labels.now ∷ items.Names items.Labels otherwise ∷ []) out.old.items out.new.items result }
{
    put!(write_labels(out, labels));
    write_index(out, otherwise)
}

#[tactic(auto, using(crate::proofs::Appends::then_written, crate::proofs::Keeps::keeps_on))]
fn write_access_lane(out: &mut Vec<u8>, access: MemoryAccess, lane: u8) -> Result<(), AllocError>
    ensures { AppendsItems (items.Access «access» ∷ items.Byte lane ∷ []) out.old.items out.new.items result }
{
    put!(write_access(out, access));
    write_byte(out, lane)
}

#[tactic(auto, using(crate::proofs::Appends::appends_on, crate::proofs::Keeps::keeps_on, std::proofs::lemmas::List::append_assoc))]
fn write_cast(
    out: &mut Vec<u8>,
    flags: u8,
    label: u32,
    from: HeapType,
    to: HeapType,
) -> Result<(), AllocError>
    ensures { AppendsItems (items.Byte flags ∷ items.Names items.Labels label ∷ items.Heap from ∷ items.Heap to ∷ []) out.old.items out.new.items result }
{
    put!(write_byte(out, flags));
    put!(write_index(out, label));
    put!(write_heap_type(out, from));
    write_heap_type(out, to)
}

#[tactic(auto, using(crate::proofs::Appends::both_written))]
pub(crate) fn write_immediates(out: &mut Vec<u8>, immediates: &Immediates) -> Result<(), AllocError>
    ensures { AppendsItems (items_of immediates.now) out.old.items out.new.items result }
{
    match immediates {
        Immediates::Bare => Ok(()),
        Immediates::Tag(n)
        | Immediates::Label(n)
        | Immediates::Function(n)
        | Immediates::Type(n)
        | Immediates::Local(n)
        | Immediates::Global(n)
        | Immediates::Table(n)
        | Immediates::Memory(n)
        | Immediates::Data(n)
        | Immediates::Element(n) => write_index(out, *n),
        Immediates::TypeTable(m, n)
        | Immediates::DataMemory(m, n)
        | Immediates::MemoryMemory(m, n)
        | Immediates::ElementTable(m, n)
        | Immediates::TableTable(m, n)
        | Immediates::TypeNumber(m, n)
        | Immediates::TypeData(m, n)
        | Immediates::TypeElement(m, n)
        | Immediates::TypeType(m, n) => write_two(out, *m, *n),
        Immediates::Block(ty) => write_block_type(out, *ty),
        Immediates::TryTable(ty, clauses) => write_try_table(out, *ty, clauses),
        Immediates::BrTable(labels, otherwise) => write_branch_table(out, labels, *otherwise),
        Immediates::Select(types) => write_values(out, types),
        Immediates::Access(access) => write_access(out, *access),
        Immediates::I32(n) => write_signed(out, i64::from(*n)),
        Immediates::I64(n) => write_signed(out, *n),
        Immediates::F32(x) => write_bits32(out, x.bits()),
        Immediates::F64(x) => write_bits64(out, x.bits()),
        Immediates::Heap(ty) => write_heap_type(out, *ty),
        Immediates::Cast(flags, label, from, to) => write_cast(out, *flags, *label, *from, *to),
        Immediates::Vector(bytes) => write_bytes(out, bytes),
        Immediates::Lane(lane) => write_byte(out, *lane),
        Immediates::AccessLane(access, lane) => write_access_lane(out, *access, *lane),
        Immediates::Zero => write_byte(out, 0),
    }
}
