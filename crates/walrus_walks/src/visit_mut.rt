//! What instructions and their parts name, to be changed.
ghost use Rattle.std.specs.Prelude.{ℕ};
ghost use Rattle.walrus_walks.specs.Events.{Event, NamesSeq};
ghost use Rattle.walrus_walks.specs.Changes.{Threads, Handed, RefChanged, ValChanged, WrittenChanged, BlockTypeChanged, LegacyChanged, ClauseChanged, InstrChanged};
ghost use Rattle.walrus_walks.specs.Changing.{TypeChanged};

use crate::visitor_mut::VisitorMut;
use walrus_arena::InstrSeqId;
use walrus_instr::type_table::{HeapType, RefType, ValType};
use walrus_instr::{Instr, InstrSeq, InstrSeqType, LegacyCatch, SeqType, TryTableCatch};

/// What hands a visitor the ids and constants in it, in the order of its fields.
pub trait VisitMut {
    /// How a visitor with such steps, and this, may be left.
    ghost changed: { {V : Type 0} → (V → Event → Event → V → Type 0) → V → Self → V → Self → Type 0 };

    /// Hands the visitor each id and constant in it.
    fn visit_mut<V: VisitorMut>(&mut self, visitor: &mut V)
        ensures { changed V.step visitor.old self.old visitor.new self.new };
}

fn visit_ref_type_mut<V: VisitorMut>(visitor: &mut V, ty: &mut RefType)
    ensures { RefChanged V.step visitor.old ty.old visitor.new ty.new }
{
    match &mut ty.heap_type {
        HeapType::Abstract(_) => {}
        HeapType::Shared(_) => {}
        HeapType::Concrete(id) => visitor.visit_type_id_mut(id),
        HeapType::Exact(id) => visitor.visit_type_id_mut(id),
    }
}

fn visit_val_type_mut<V: VisitorMut>(visitor: &mut V, ty: &mut ValType)
    ensures { ValChanged V.step visitor.old ty.old visitor.new ty.new }
{
    match ty {
        ValType::Ref(ty) => visit_ref_type_mut(visitor, ty),
        _ => {}
    }
}

fn visit_written_mut<V: VisitorMut>(visitor: &mut V, ty: &mut Option<ValType>)
    ensures { WrittenChanged V.step visitor.old ty.old visitor.new ty.new }
{
    if let Some(ty) = ty {
        visit_val_type_mut(visitor, ty)
    }
}

fn visit_block_type_mut<V: VisitorMut>(visitor: &mut V, ty: &mut InstrSeqType)
    ensures { BlockTypeChanged V.step visitor.old ty.old visitor.new ty.new }
{
    match ty {
        InstrSeqType::Simple(ty) => visit_written_mut(visitor, ty),
        InstrSeqType::MultiValue(id) => visitor.visit_type_id_mut(id),
    }
}

impl VisitMut for LegacyCatch {
    ghost changed = { LegacyChanged };

    fn visit_mut<V: VisitorMut>(&mut self, visitor: &mut V) {
        match self {
            LegacyCatch::Catch { tag, .. } => visitor.visit_tag_id_mut(tag),
            LegacyCatch::CatchAll { .. } => {}
            LegacyCatch::Delegate { .. } => {}
        }
    }
}

impl VisitMut for TryTableCatch {
    ghost changed = { ClauseChanged };

    fn visit_mut<V: VisitorMut>(&mut self, visitor: &mut V) {
        match self {
            TryTableCatch::Catch { tag, label } => {
                visitor.visit_tag_id_mut(tag);
                visitor.visit_instr_seq_id_mut(label)
            }
            TryTableCatch::CatchRef { tag, label } => {
                visitor.visit_tag_id_mut(tag);
                visitor.visit_instr_seq_id_mut(label)
            }
            TryTableCatch::CatchAll { label } => visitor.visit_instr_seq_id_mut(label),
            TryTableCatch::CatchAllRef { label } => visitor.visit_instr_seq_id_mut(label),
        }
    }
}

impl VisitMut for InstrSeq {
    ghost changed = { TypeChanged };

    /// Hands over the type that the block type names.
    fn visit_mut<V: VisitorMut>(&mut self, visitor: &mut V) {
        let mut ty = self.ty.get();
        visit_block_type_mut(visitor, &mut ty);
        self.ty = SeqType::new(ty);
    }
}

/// The label of a branch.
impl VisitMut for InstrSeqId {
    ghost changed = { λ {V} step. Handed step NamesSeq };

    fn visit_mut<V: VisitorMut>(&mut self, visitor: &mut V) {
        visitor.visit_instr_seq_id_mut(self)
    }
}

fn visit_all_mut<T: VisitMut, V: VisitorMut>(visitor: &mut V, items: &mut [T])
    ensures { Threads (T.changed V.step) visitor.old items.old visitor.new items.new }
{
    for item in items.iter_mut() {
        item.visit_mut(visitor);
    }
}

impl VisitMut for Instr {
    ghost changed = { InstrChanged };

    /// Hands over each id and constant in it, but for the sequences that it holds.
    fn visit_mut<V: VisitorMut>(&mut self, visitor: &mut V) {
        match self {
            Instr::Try { catches, .. } => visit_all_mut(visitor, catches.as_mut_slice()),
            Instr::TryTable { catches, .. } => visit_all_mut(visitor, catches.as_mut_slice()),
            Instr::BrTable { blocks, default } => {
                visit_all_mut(visitor, blocks.as_mut_slice());
                visitor.visit_instr_seq_id_mut(default)
            }
            Instr::Br { block } => visitor.visit_instr_seq_id_mut(block),
            Instr::BrIf { block } => visitor.visit_instr_seq_id_mut(block),
            Instr::BrOnNull { block } => visitor.visit_instr_seq_id_mut(block),
            Instr::BrOnNonNull { block } => visitor.visit_instr_seq_id_mut(block),
            Instr::BrOnCast {
                block,
                from_ty,
                to_ty,
            } => {
                visitor.visit_instr_seq_id_mut(block);
                visit_ref_type_mut(visitor, from_ty);
                visit_ref_type_mut(visitor, to_ty)
            }
            Instr::BrOnCastFail {
                block,
                from_ty,
                to_ty,
            } => {
                visitor.visit_instr_seq_id_mut(block);
                visit_ref_type_mut(visitor, from_ty);
                visit_ref_type_mut(visitor, to_ty)
            }
            Instr::Throw { tag } => visitor.visit_tag_id_mut(tag),
            Instr::Call { func } => visitor.visit_function_id_mut(func),
            Instr::ReturnCall { func } => visitor.visit_function_id_mut(func),
            Instr::RefFunc { func } => visitor.visit_function_id_mut(func),
            Instr::CallIndirect { ty, table } => {
                visitor.visit_type_id_mut(ty);
                visitor.visit_table_id_mut(table)
            }
            Instr::ReturnCallIndirect { ty, table } => {
                visitor.visit_type_id_mut(ty);
                visitor.visit_table_id_mut(table)
            }
            Instr::CallRef { ty } => visitor.visit_type_id_mut(ty),
            Instr::ReturnCallRef { ty } => visitor.visit_type_id_mut(ty),
            Instr::StructNew { ty } => visitor.visit_type_id_mut(ty),
            Instr::StructNewDefault { ty } => visitor.visit_type_id_mut(ty),
            Instr::StructGet { ty, .. } => visitor.visit_type_id_mut(ty),
            Instr::StructGetS { ty, .. } => visitor.visit_type_id_mut(ty),
            Instr::StructGetU { ty, .. } => visitor.visit_type_id_mut(ty),
            Instr::StructSet { ty, .. } => visitor.visit_type_id_mut(ty),
            Instr::ArrayNew { ty } => visitor.visit_type_id_mut(ty),
            Instr::ArrayNewDefault { ty } => visitor.visit_type_id_mut(ty),
            Instr::ArrayNewFixed { ty, .. } => visitor.visit_type_id_mut(ty),
            Instr::ArrayGet { ty } => visitor.visit_type_id_mut(ty),
            Instr::ArrayGetS { ty } => visitor.visit_type_id_mut(ty),
            Instr::ArrayGetU { ty } => visitor.visit_type_id_mut(ty),
            Instr::ArraySet { ty } => visitor.visit_type_id_mut(ty),
            Instr::ArrayFill { ty } => visitor.visit_type_id_mut(ty),
            Instr::ArrayNewData { ty, data } => {
                visitor.visit_type_id_mut(ty);
                visitor.visit_data_id_mut(data)
            }
            Instr::ArrayInitData { ty, data } => {
                visitor.visit_type_id_mut(ty);
                visitor.visit_data_id_mut(data)
            }
            Instr::ArrayNewElem { ty, elem } => {
                visitor.visit_type_id_mut(ty);
                visitor.visit_element_id_mut(elem)
            }
            Instr::ArrayInitElem { ty, elem } => {
                visitor.visit_type_id_mut(ty);
                visitor.visit_element_id_mut(elem)
            }
            Instr::ArrayCopy { src, dst } => {
                visitor.visit_type_id_mut(src);
                visitor.visit_type_id_mut(dst)
            }
            Instr::Select { ty } => visit_written_mut(visitor, ty),
            Instr::Const { value } => visitor.visit_value_mut(value),
            Instr::LocalGet { local } => visitor.visit_local_id_mut(local),
            Instr::LocalSet { local } => visitor.visit_local_id_mut(local),
            Instr::LocalTee { local } => visitor.visit_local_id_mut(local),
            Instr::GlobalGet { global } => visitor.visit_global_id_mut(global),
            Instr::GlobalSet { global } => visitor.visit_global_id_mut(global),
            Instr::TableGet { table } => visitor.visit_table_id_mut(table),
            Instr::TableSet { table } => visitor.visit_table_id_mut(table),
            Instr::TableGrow { table } => visitor.visit_table_id_mut(table),
            Instr::TableSize { table } => visitor.visit_table_id_mut(table),
            Instr::TableFill { table } => visitor.visit_table_id_mut(table),
            Instr::TableInit { table, elem } => {
                visitor.visit_table_id_mut(table);
                visitor.visit_element_id_mut(elem)
            }
            Instr::ElemDrop { elem } => visitor.visit_element_id_mut(elem),
            Instr::TableCopy { src, dst } => {
                visitor.visit_table_id_mut(src);
                visitor.visit_table_id_mut(dst)
            }
            Instr::Load { memory, .. } => visitor.visit_memory_id_mut(memory),
            Instr::Store { memory, .. } => visitor.visit_memory_id_mut(memory),
            Instr::LoadSimd { memory, .. } => visitor.visit_memory_id_mut(memory),
            Instr::MemorySize { memory } => visitor.visit_memory_id_mut(memory),
            Instr::MemoryGrow { memory } => visitor.visit_memory_id_mut(memory),
            Instr::MemoryFill { memory } => visitor.visit_memory_id_mut(memory),
            Instr::AtomicRmw { memory, .. } => visitor.visit_memory_id_mut(memory),
            Instr::Cmpxchg { memory, .. } => visitor.visit_memory_id_mut(memory),
            Instr::AtomicNotify { memory, .. } => visitor.visit_memory_id_mut(memory),
            Instr::AtomicWait { memory, .. } => visitor.visit_memory_id_mut(memory),
            Instr::MemoryInit { memory, data } => {
                visitor.visit_memory_id_mut(memory);
                visitor.visit_data_id_mut(data)
            }
            Instr::DataDrop { data } => visitor.visit_data_id_mut(data),
            Instr::MemoryCopy { src, dst } => {
                visitor.visit_memory_id_mut(src);
                visitor.visit_memory_id_mut(dst)
            }
            Instr::RefNull { ty } => visit_ref_type_mut(visitor, ty),
            Instr::RefTest { ty } => visit_ref_type_mut(visitor, ty),
            Instr::RefCast { ty } => visit_ref_type_mut(visitor, ty),
            Instr::Block { .. }
            | Instr::Loop { .. }
            | Instr::IfElse { .. }
            | Instr::Unreachable
            | Instr::Return
            | Instr::ThrowRef
            | Instr::Rethrow { .. }
            | Instr::Drop
            | Instr::Unop { .. }
            | Instr::Binop { .. }
            | Instr::TernOp { .. }
            | Instr::I64Add128
            | Instr::I64Sub128
            | Instr::V128Bitselect
            | Instr::I8x16Swizzle
            | Instr::I8x16Shuffle { .. }
            | Instr::AtomicFence
            | Instr::RefIsNull
            | Instr::RefEq
            | Instr::RefAsNonNull
            | Instr::RefI31
            | Instr::I31GetS
            | Instr::I31GetU
            | Instr::AnyConvertExtern
            | Instr::ExternConvertAny
            | Instr::ArrayLen => {}
        }
    }
}
