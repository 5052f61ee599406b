//! Copies of instructions.
ghost use Rattle.std.specs.Prelude.{IfOk};
ghost use Rattle.walrus_instr.specs.Copies.{IsInstrCopy};

use crate::instr::Instr;
use std::alloc::AllocError;

impl Instr {
    /// An equal instruction.
    ///
    /// # Errors
    ///
    /// Want of memory, where it holds a list.
    pub fn clone(&self) -> Result<Self, AllocError>
        ensures { IfOk result (λ copy. IsInstrCopy self.now copy) }
    {
        match self {
            Instr::Block { seq } => Ok(Instr::Block { seq: *seq }),
            Instr::Loop { seq } => Ok(Instr::Loop { seq: *seq }),
            Instr::IfElse {
                consequent,
                alternative,
            } => Ok(Instr::IfElse {
                consequent: *consequent,
                alternative: *alternative,
            }),
            Instr::Try { seq, catches } => Ok(Instr::Try {
                seq: *seq,
                catches: catches.clone()?,
            }),
            Instr::TryTable { seq, catches } => Ok(Instr::TryTable {
                seq: *seq,
                catches: catches.clone()?,
            }),
            Instr::Unreachable => Ok(Instr::Unreachable),
            Instr::Br { block } => Ok(Instr::Br { block: *block }),
            Instr::BrIf { block } => Ok(Instr::BrIf { block: *block }),
            Instr::BrTable { blocks, default } => Ok(Instr::BrTable {
                blocks: blocks.clone()?,
                default: *default,
            }),
            Instr::BrOnNull { block } => Ok(Instr::BrOnNull { block: *block }),
            Instr::BrOnNonNull { block } => Ok(Instr::BrOnNonNull { block: *block }),
            Instr::BrOnCast {
                block,
                from_ty,
                to_ty,
            } => Ok(Instr::BrOnCast {
                block: *block,
                from_ty: *from_ty,
                to_ty: *to_ty,
            }),
            Instr::BrOnCastFail {
                block,
                from_ty,
                to_ty,
            } => Ok(Instr::BrOnCastFail {
                block: *block,
                from_ty: *from_ty,
                to_ty: *to_ty,
            }),
            Instr::Return => Ok(Instr::Return),
            Instr::Throw { tag } => Ok(Instr::Throw { tag: *tag }),
            Instr::ThrowRef => Ok(Instr::ThrowRef),
            Instr::Rethrow { relative_depth } => Ok(Instr::Rethrow {
                relative_depth: *relative_depth,
            }),
            Instr::Call { func } => Ok(Instr::Call { func: *func }),
            Instr::CallIndirect { ty, table } => Ok(Instr::CallIndirect {
                ty: *ty,
                table: *table,
            }),
            Instr::CallRef { ty } => Ok(Instr::CallRef { ty: *ty }),
            Instr::ReturnCall { func } => Ok(Instr::ReturnCall { func: *func }),
            Instr::ReturnCallIndirect { ty, table } => Ok(Instr::ReturnCallIndirect {
                ty: *ty,
                table: *table,
            }),
            Instr::ReturnCallRef { ty } => Ok(Instr::ReturnCallRef { ty: *ty }),
            Instr::Drop => Ok(Instr::Drop),
            Instr::Select { ty } => Ok(Instr::Select { ty: *ty }),
            Instr::Const { value } => Ok(Instr::Const { value: *value }),
            Instr::Unop { op } => Ok(Instr::Unop { op: *op }),
            Instr::Binop { op } => Ok(Instr::Binop { op: *op }),
            Instr::TernOp { op } => Ok(Instr::TernOp { op: *op }),
            Instr::I64Add128 => Ok(Instr::I64Add128),
            Instr::I64Sub128 => Ok(Instr::I64Sub128),
            Instr::V128Bitselect => Ok(Instr::V128Bitselect),
            Instr::I8x16Swizzle => Ok(Instr::I8x16Swizzle),
            Instr::I8x16Shuffle { indices } => Ok(Instr::I8x16Shuffle { indices: *indices }),
            Instr::LocalGet { local } => Ok(Instr::LocalGet { local: *local }),
            Instr::LocalSet { local } => Ok(Instr::LocalSet { local: *local }),
            Instr::LocalTee { local } => Ok(Instr::LocalTee { local: *local }),
            Instr::GlobalGet { global } => Ok(Instr::GlobalGet { global: *global }),
            Instr::GlobalSet { global } => Ok(Instr::GlobalSet { global: *global }),
            Instr::TableGet { table } => Ok(Instr::TableGet { table: *table }),
            Instr::TableSet { table } => Ok(Instr::TableSet { table: *table }),
            Instr::TableGrow { table } => Ok(Instr::TableGrow { table: *table }),
            Instr::TableSize { table } => Ok(Instr::TableSize { table: *table }),
            Instr::TableFill { table } => Ok(Instr::TableFill { table: *table }),
            Instr::TableInit { table, elem } => Ok(Instr::TableInit {
                table: *table,
                elem: *elem,
            }),
            Instr::ElemDrop { elem } => Ok(Instr::ElemDrop { elem: *elem }),
            Instr::TableCopy { src, dst } => Ok(Instr::TableCopy {
                src: *src,
                dst: *dst,
            }),
            Instr::Load { memory, kind, arg } => Ok(Instr::Load {
                memory: *memory,
                kind: *kind,
                arg: *arg,
            }),
            Instr::Store { memory, kind, arg } => Ok(Instr::Store {
                memory: *memory,
                kind: *kind,
                arg: *arg,
            }),
            Instr::LoadSimd { memory, kind, arg } => Ok(Instr::LoadSimd {
                memory: *memory,
                kind: *kind,
                arg: *arg,
            }),
            Instr::MemorySize { memory } => Ok(Instr::MemorySize { memory: *memory }),
            Instr::MemoryGrow { memory } => Ok(Instr::MemoryGrow { memory: *memory }),
            Instr::MemoryInit { memory, data } => Ok(Instr::MemoryInit {
                memory: *memory,
                data: *data,
            }),
            Instr::DataDrop { data } => Ok(Instr::DataDrop { data: *data }),
            Instr::MemoryCopy { src, dst } => Ok(Instr::MemoryCopy {
                src: *src,
                dst: *dst,
            }),
            Instr::MemoryFill { memory } => Ok(Instr::MemoryFill { memory: *memory }),
            Instr::AtomicRmw {
                memory,
                op,
                width,
                arg,
            } => Ok(Instr::AtomicRmw {
                memory: *memory,
                op: *op,
                width: *width,
                arg: *arg,
            }),
            Instr::Cmpxchg { memory, width, arg } => Ok(Instr::Cmpxchg {
                memory: *memory,
                width: *width,
                arg: *arg,
            }),
            Instr::AtomicNotify { memory, arg } => Ok(Instr::AtomicNotify {
                memory: *memory,
                arg: *arg,
            }),
            Instr::AtomicWait {
                memory,
                arg,
                sixty_four,
            } => Ok(Instr::AtomicWait {
                memory: *memory,
                arg: *arg,
                sixty_four: *sixty_four,
            }),
            Instr::AtomicFence => Ok(Instr::AtomicFence),
            Instr::RefNull { ty } => Ok(Instr::RefNull { ty: *ty }),
            Instr::RefIsNull => Ok(Instr::RefIsNull),
            Instr::RefFunc { func } => Ok(Instr::RefFunc { func: *func }),
            Instr::RefEq => Ok(Instr::RefEq),
            Instr::RefAsNonNull => Ok(Instr::RefAsNonNull),
            Instr::RefTest { ty } => Ok(Instr::RefTest { ty: *ty }),
            Instr::RefCast { ty } => Ok(Instr::RefCast { ty: *ty }),
            Instr::RefI31 => Ok(Instr::RefI31),
            Instr::I31GetS => Ok(Instr::I31GetS),
            Instr::I31GetU => Ok(Instr::I31GetU),
            Instr::AnyConvertExtern => Ok(Instr::AnyConvertExtern),
            Instr::ExternConvertAny => Ok(Instr::ExternConvertAny),
            Instr::StructNew { ty } => Ok(Instr::StructNew { ty: *ty }),
            Instr::StructNewDefault { ty } => Ok(Instr::StructNewDefault { ty: *ty }),
            Instr::StructGet { ty, field } => Ok(Instr::StructGet {
                ty: *ty,
                field: *field,
            }),
            Instr::StructGetS { ty, field } => Ok(Instr::StructGetS {
                ty: *ty,
                field: *field,
            }),
            Instr::StructGetU { ty, field } => Ok(Instr::StructGetU {
                ty: *ty,
                field: *field,
            }),
            Instr::StructSet { ty, field } => Ok(Instr::StructSet {
                ty: *ty,
                field: *field,
            }),
            Instr::ArrayNew { ty } => Ok(Instr::ArrayNew { ty: *ty }),
            Instr::ArrayNewDefault { ty } => Ok(Instr::ArrayNewDefault { ty: *ty }),
            Instr::ArrayNewFixed { ty, size } => Ok(Instr::ArrayNewFixed {
                ty: *ty,
                size: *size,
            }),
            Instr::ArrayNewData { ty, data } => Ok(Instr::ArrayNewData {
                ty: *ty,
                data: *data,
            }),
            Instr::ArrayNewElem { ty, elem } => Ok(Instr::ArrayNewElem {
                ty: *ty,
                elem: *elem,
            }),
            Instr::ArrayGet { ty } => Ok(Instr::ArrayGet { ty: *ty }),
            Instr::ArrayGetS { ty } => Ok(Instr::ArrayGetS { ty: *ty }),
            Instr::ArrayGetU { ty } => Ok(Instr::ArrayGetU { ty: *ty }),
            Instr::ArraySet { ty } => Ok(Instr::ArraySet { ty: *ty }),
            Instr::ArrayLen => Ok(Instr::ArrayLen),
            Instr::ArrayFill { ty } => Ok(Instr::ArrayFill { ty: *ty }),
            Instr::ArrayCopy { src, dst } => Ok(Instr::ArrayCopy {
                src: *src,
                dst: *dst,
            }),
            Instr::ArrayInitData { ty, data } => Ok(Instr::ArrayInitData {
                ty: *ty,
                data: *data,
            }),
            Instr::ArrayInitElem { ty, elem } => Ok(Instr::ArrayInitElem {
                ty: *ty,
                elem: *elem,
            }),
        }
    }
}
