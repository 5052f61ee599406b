//! What instructions and their parts name.
ghost use Rattle.std.specs.Prelude.{List, [], ◌∷◌};
ghost use Rattle.std.specs.List.{FoldsTo};
ghost use Rattle.walrus_walks.specs.Events.{ref_names, val_names, written_names, block_names, legacy_names, clause_names, names, events_of, NamesSeq, Event};

use crate::visitor::Visitor;
use walrus_arena::InstrSeqId;
use walrus_instr::type_table::{HeapType, RefType, ValType};
use walrus_instr::{Instr, InstrSeq, InstrSeqType, LegacyCatch, TryTableCatch};

/// What tells a visitor of the ids and constants in it, in the order of its fields.
pub trait Visit {
    /// What it tells.
    ghost tells: { Self → List Event };

    /// Tells the visitor of each id and constant in it.
    fn visit<V: Visitor>(&self, visitor: &mut V)
        ensures { FoldsTo V.step visitor.old (tells self.now) visitor.new };
}

pub(crate) fn visit_ref_type<V: Visitor>(visitor: &mut V, ty: &RefType)
    ensures { FoldsTo V.step visitor.old (ref_names ty.now) visitor.new }
{
    match &ty.heap_type {
        HeapType::Abstract(_) => {}
        HeapType::Shared(_) => {}
        HeapType::Concrete(id) => visitor.visit_type_id(id),
        HeapType::Exact(id) => visitor.visit_type_id(id),
    }
}

fn visit_val_type<V: Visitor>(visitor: &mut V, ty: &ValType)
    ensures { FoldsTo V.step visitor.old (val_names ty.now) visitor.new }
{
    match ty {
        ValType::Ref(ty) => visit_ref_type(visitor, ty),
        _ => {}
    }
}

fn visit_written<V: Visitor>(visitor: &mut V, ty: &Option<ValType>)
    ensures { FoldsTo V.step visitor.old (written_names ty.now) visitor.new }
{
    if let Some(ty) = ty {
        visit_val_type(visitor, ty)
    }
}

impl Visit for LegacyCatch {
    ghost tells = { legacy_names };

    fn visit<V: Visitor>(&self, visitor: &mut V) {
        match self {
            LegacyCatch::Catch { tag, .. } => visitor.visit_tag_id(tag),
            LegacyCatch::CatchAll { .. } => {}
            LegacyCatch::Delegate { .. } => {}
        }
    }
}

impl Visit for TryTableCatch {
    ghost tells = { clause_names };

    fn visit<V: Visitor>(&self, visitor: &mut V) {
        match self {
            TryTableCatch::Catch { tag, label } => {
                visitor.visit_tag_id(tag);
                visitor.visit_instr_seq_id(label)
            }
            TryTableCatch::CatchRef { tag, label } => {
                visitor.visit_tag_id(tag);
                visitor.visit_instr_seq_id(label)
            }
            TryTableCatch::CatchAll { label } => visitor.visit_instr_seq_id(label),
            TryTableCatch::CatchAllRef { label } => visitor.visit_instr_seq_id(label),
        }
    }
}

impl Visit for InstrSeq {
    ghost tells = { λ seq. block_names seq.ty };

    /// Tells of the type that the block type names.
    fn visit<V: Visitor>(&self, visitor: &mut V) {
        match self.ty.get() {
            InstrSeqType::Simple(ty) => visit_written(visitor, &ty),
            InstrSeqType::MultiValue(id) => visitor.visit_type_id(&id),
        }
    }
}

/// The label of a branch.
impl Visit for InstrSeqId {
    ghost tells = { λ id. NamesSeq id ∷ [] };

    fn visit<V: Visitor>(&self, visitor: &mut V) {
        visitor.visit_instr_seq_id(self)
    }
}

pub(crate) fn visit_all<T: Visit, V: Visitor>(visitor: &mut V, items: &[T])
    ensures { FoldsTo V.step visitor.old (events_of T.tells items.now) visitor.new }
{
    for item in items {
        item.visit(visitor);
    }
}

impl Visit for Instr {
    ghost tells = { names };

    /// Tells of each id and constant in it, but for the sequences that it holds.
    fn visit<V: Visitor>(&self, visitor: &mut V) {
        match self {
            Instr::Try { catches, .. } => visit_all(visitor, catches.as_slice()),
            Instr::TryTable { catches, .. } => visit_all(visitor, catches.as_slice()),
            Instr::BrTable { blocks, default } => {
                visit_all(visitor, blocks.as_slice());
                visitor.visit_instr_seq_id(default)
            }
            Instr::Br { block }
            | Instr::BrIf { block }
            | Instr::BrOnNull { block }
            | Instr::BrOnNonNull { block } => visitor.visit_instr_seq_id(block),
            Instr::BrOnCast {
                block,
                from_ty,
                to_ty,
            }
            | Instr::BrOnCastFail {
                block,
                from_ty,
                to_ty,
            } => {
                visitor.visit_instr_seq_id(block);
                visit_ref_type(visitor, from_ty);
                visit_ref_type(visitor, to_ty)
            }
            Instr::Throw { tag } => visitor.visit_tag_id(tag),
            Instr::Call { func } | Instr::ReturnCall { func } | Instr::RefFunc { func } => {
                visitor.visit_function_id(func)
            }
            Instr::CallIndirect { ty, table } | Instr::ReturnCallIndirect { ty, table } => {
                visitor.visit_type_id(ty);
                visitor.visit_table_id(table)
            }
            Instr::CallRef { ty }
            | Instr::ReturnCallRef { ty }
            | Instr::StructNew { ty }
            | Instr::StructNewDefault { ty }
            | Instr::StructGet { ty, .. }
            | Instr::StructGetS { ty, .. }
            | Instr::StructGetU { ty, .. }
            | Instr::StructSet { ty, .. }
            | Instr::ArrayNew { ty }
            | Instr::ArrayNewDefault { ty }
            | Instr::ArrayNewFixed { ty, .. }
            | Instr::ArrayGet { ty }
            | Instr::ArrayGetS { ty }
            | Instr::ArrayGetU { ty }
            | Instr::ArraySet { ty }
            | Instr::ArrayFill { ty } => visitor.visit_type_id(ty),
            Instr::ArrayNewData { ty, data } | Instr::ArrayInitData { ty, data } => {
                visitor.visit_type_id(ty);
                visitor.visit_data_id(data)
            }
            Instr::ArrayNewElem { ty, elem } | Instr::ArrayInitElem { ty, elem } => {
                visitor.visit_type_id(ty);
                visitor.visit_element_id(elem)
            }
            Instr::ArrayCopy { src, dst } => {
                visitor.visit_type_id(src);
                visitor.visit_type_id(dst)
            }
            Instr::Select { ty } => visit_written(visitor, ty),
            Instr::Const { value } => visitor.visit_value(value),
            Instr::LocalGet { local } | Instr::LocalSet { local } | Instr::LocalTee { local } => {
                visitor.visit_local_id(local)
            }
            Instr::GlobalGet { global } | Instr::GlobalSet { global } => {
                visitor.visit_global_id(global)
            }
            Instr::TableGet { table }
            | Instr::TableSet { table }
            | Instr::TableGrow { table }
            | Instr::TableSize { table }
            | Instr::TableFill { table } => visitor.visit_table_id(table),
            Instr::TableInit { table, elem } => {
                visitor.visit_table_id(table);
                visitor.visit_element_id(elem)
            }
            Instr::ElemDrop { elem } => visitor.visit_element_id(elem),
            Instr::TableCopy { src, dst } => {
                visitor.visit_table_id(src);
                visitor.visit_table_id(dst)
            }
            Instr::Load { memory, .. }
            | Instr::Store { memory, .. }
            | Instr::LoadSimd { memory, .. }
            | Instr::MemorySize { memory }
            | Instr::MemoryGrow { memory }
            | Instr::MemoryFill { memory }
            | Instr::AtomicRmw { memory, .. }
            | Instr::Cmpxchg { memory, .. }
            | Instr::AtomicNotify { memory, .. }
            | Instr::AtomicWait { memory, .. } => visitor.visit_memory_id(memory),
            Instr::MemoryInit { memory, data } => {
                visitor.visit_memory_id(memory);
                visitor.visit_data_id(data)
            }
            Instr::DataDrop { data } => visitor.visit_data_id(data),
            Instr::MemoryCopy { src, dst } => {
                visitor.visit_memory_id(src);
                visitor.visit_memory_id(dst)
            }
            Instr::RefNull { ty } | Instr::RefTest { ty } | Instr::RefCast { ty } => {
                visit_ref_type(visitor, ty)
            }
            Instr::Block { .. }
            | Instr::Loop { .. }
            | Instr::IfElse { .. }
            | Instr::Unreachable
            | Instr::Return
            | Instr::ThrowRef
            | Instr::Rethrow { .. }
            | Instr::Drop
            | Instr::Unop { .. }
            | Instr::Binop { .. }
            | Instr::TernOp { .. }
            | Instr::I64Add128
            | Instr::I64Sub128
            | Instr::V128Bitselect
            | Instr::I8x16Swizzle
            | Instr::I8x16Shuffle { .. }
            | Instr::AtomicFence
            | Instr::RefIsNull
            | Instr::RefEq
            | Instr::RefAsNonNull
            | Instr::RefI31
            | Instr::I31GetS
            | Instr::I31GetU
            | Instr::AnyConvertExtern
            | Instr::ExternConvertAny
            | Instr::ArrayLen => {}
        }
    }
}
