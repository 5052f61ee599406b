//! Plain control, parametric, numeric and variable instructions, one call each.
ghost use Rattle.walrus_builder.specs.Built.{pushes, Edits};
ghost use Rattle.walrus_walks.specs.walrus_instr.declared.instr.Value.TheVariants as Constant;

use crate::seq_builder::InstrSeqBuilder;
use std::alloc::AllocError;
use walrus_arena::{FunctionId, GlobalId, InstrSeqId, LocalId, TableId, TagId, TypeId};
use walrus_walks::instr::{BinaryOp, Instr, ShuffleIndices, TernaryOp, UnaryOp, Value};
use walrus_walks::type_table::{RefType, ValType};

impl InstrSeqBuilder {
    /// Appends `unreachable`.
    ///
    /// # Errors
    ///
    /// Want of memory. The sequences stay as they were.
    pub fn unreachable(&mut self) -> Result<(), AllocError>
        ensures { Edits self.old (pushes Instr.Unreachable) result self.new }
    {
        self.instr(Instr::Unreachable)
    }

    /// Appends `br`.
    ///
    /// # Errors
    ///
    /// Want of memory. The sequences stay as they were.
    pub fn br(&mut self, block: InstrSeqId) -> Result<(), AllocError>
        ensures { Edits self.old (pushes (Instr.Br block)) result self.new }
    {
        self.instr(Instr::Br { block })
    }

    /// Appends `br_if`.
    ///
    /// # Errors
    ///
    /// Want of memory. The sequences stay as they were.
    pub fn br_if(&mut self, block: InstrSeqId) -> Result<(), AllocError>
        ensures { Edits self.old (pushes (Instr.BrIf block)) result self.new }
    {
        self.instr(Instr::BrIf { block })
    }

    /// Appends `br_table`.
    ///
    /// # Errors
    ///
    /// Want of memory. The sequences stay as they were.
    pub fn br_table(
        &mut self,
        blocks: Vec<InstrSeqId>,
        default: InstrSeqId,
    ) -> Result<(), AllocError>
        ensures { Edits self.old (pushes (Instr.BrTable default blocks)) result self.new }
    {
        self.instr(Instr::BrTable { blocks, default })
    }

    /// Appends `br_on_null`.
    ///
    /// # Errors
    ///
    /// Want of memory. The sequences stay as they were.
    pub fn br_on_null(&mut self, block: InstrSeqId) -> Result<(), AllocError>
        ensures { Edits self.old (pushes (Instr.BrOnNull block)) result self.new }
    {
        self.instr(Instr::BrOnNull { block })
    }

    /// Appends `br_on_non_null`.
    ///
    /// # Errors
    ///
    /// Want of memory. The sequences stay as they were.
    pub fn br_on_non_null(&mut self, block: InstrSeqId) -> Result<(), AllocError>
        ensures { Edits self.old (pushes (Instr.BrOnNonNull block)) result self.new }
    {
        self.instr(Instr::BrOnNonNull { block })
    }

    /// Appends `br_on_cast`.
    ///
    /// # Errors
    ///
    /// Want of memory. The sequences stay as they were.
    pub fn br_on_cast(
        &mut self,
        block: InstrSeqId,
        from_ty: RefType,
        to_ty: RefType,
    ) -> Result<(), AllocError>
        ensures { Edits self.old (pushes (Instr.BrOnCast block from_ty to_ty)) result self.new }
    {
        self.instr(Instr::BrOnCast {
            block,
            from_ty,
            to_ty,
        })
    }

    /// Appends `br_on_cast_fail`.
    ///
    /// # Errors
    ///
    /// Want of memory. The sequences stay as they were.
    pub fn br_on_cast_fail(
        &mut self,
        block: InstrSeqId,
        from_ty: RefType,
        to_ty: RefType,
    ) -> Result<(), AllocError>
        ensures { Edits self.old (pushes (Instr.BrOnCastFail block from_ty to_ty)) result self.new }
    {
        self.instr(Instr::BrOnCastFail {
            block,
            from_ty,
            to_ty,
        })
    }

    /// Appends `return`.
    ///
    /// # Errors
    ///
    /// Want of memory. The sequences stay as they were.
    pub fn return_(&mut self) -> Result<(), AllocError>
        ensures { Edits self.old (pushes Instr.Return) result self.new }
    {
        self.instr(Instr::Return)
    }

    /// Appends `throw`.
    ///
    /// # Errors
    ///
    /// Want of memory. The sequences stay as they were.
    pub fn throw(&mut self, tag: TagId) -> Result<(), AllocError>
        ensures { Edits self.old (pushes (Instr.Throw tag)) result self.new }
    {
        self.instr(Instr::Throw { tag })
    }

    /// Appends `throw_ref`.
    ///
    /// # Errors
    ///
    /// Want of memory. The sequences stay as they were.
    pub fn throw_ref(&mut self) -> Result<(), AllocError>
        ensures { Edits self.old (pushes Instr.ThrowRef) result self.new }
    {
        self.instr(Instr::ThrowRef)
    }

    /// Appends `rethrow`.
    ///
    /// # Errors
    ///
    /// Want of memory. The sequences stay as they were.
    pub fn rethrow(&mut self, relative_depth: u32) -> Result<(), AllocError>
        ensures { Edits self.old (pushes (Instr.Rethrow relative_depth)) result self.new }
    {
        self.instr(Instr::Rethrow { relative_depth })
    }

    /// Appends `call`.
    ///
    /// # Errors
    ///
    /// Want of memory. The sequences stay as they were.
    pub fn call(&mut self, func: FunctionId) -> Result<(), AllocError>
        ensures { Edits self.old (pushes (Instr.Call func)) result self.new }
    {
        self.instr(Instr::Call { func })
    }

    /// Appends `call_indirect`.
    ///
    /// # Errors
    ///
    /// Want of memory. The sequences stay as they were.
    pub fn call_indirect(&mut self, ty: TypeId, table: TableId) -> Result<(), AllocError>
        ensures { Edits self.old (pushes (Instr.CallIndirect ty table)) result self.new }
    {
        self.instr(Instr::CallIndirect { ty, table })
    }

    /// Appends `call_ref`.
    ///
    /// # Errors
    ///
    /// Want of memory. The sequences stay as they were.
    pub fn call_ref(&mut self, ty: TypeId) -> Result<(), AllocError>
        ensures { Edits self.old (pushes (Instr.CallRef ty)) result self.new }
    {
        self.instr(Instr::CallRef { ty })
    }

    /// Appends `return_call`.
    ///
    /// # Errors
    ///
    /// Want of memory. The sequences stay as they were.
    pub fn return_call(&mut self, func: FunctionId) -> Result<(), AllocError>
        ensures { Edits self.old (pushes (Instr.ReturnCall func)) result self.new }
    {
        self.instr(Instr::ReturnCall { func })
    }

    /// Appends `return_call_indirect`.
    ///
    /// # Errors
    ///
    /// Want of memory. The sequences stay as they were.
    pub fn return_call_indirect(&mut self, ty: TypeId, table: TableId) -> Result<(), AllocError>
        ensures { Edits self.old (pushes (Instr.ReturnCallIndirect ty table)) result self.new }
    {
        self.instr(Instr::ReturnCallIndirect { ty, table })
    }

    /// Appends `return_call_ref`.
    ///
    /// # Errors
    ///
    /// Want of memory. The sequences stay as they were.
    pub fn return_call_ref(&mut self, ty: TypeId) -> Result<(), AllocError>
        ensures { Edits self.old (pushes (Instr.ReturnCallRef ty)) result self.new }
    {
        self.instr(Instr::ReturnCallRef { ty })
    }

    /// Appends `drop`.
    ///
    /// # Errors
    ///
    /// Want of memory. The sequences stay as they were.
    pub fn drop(&mut self) -> Result<(), AllocError>
        ensures { Edits self.old (pushes Instr.Drop) result self.new }
    {
        self.instr(Instr::Drop)
    }

    /// Appends `select`, with the type where one is written.
    ///
    /// # Errors
    ///
    /// Want of memory. The sequences stay as they were.
    pub fn select(&mut self, ty: Option<ValType>) -> Result<(), AllocError>
        ensures { Edits self.old (pushes (Instr.Select ty)) result self.new }
    {
        self.instr(Instr::Select { ty })
    }

    /// Appends a constant.
    ///
    /// # Errors
    ///
    /// Want of memory. The sequences stay as they were.
    pub fn const_(&mut self, value: Value) -> Result<(), AllocError>
        ensures { Edits self.old (pushes (Instr.Const value)) result self.new }
    {
        self.instr(Instr::Const { value })
    }

    /// Appends an operator on one operand.
    ///
    /// # Errors
    ///
    /// Want of memory. The sequences stay as they were.
    pub fn unop(&mut self, op: UnaryOp) -> Result<(), AllocError>
        ensures { Edits self.old (pushes (Instr.Unop op)) result self.new }
    {
        self.instr(Instr::Unop { op })
    }

    /// Appends an operator on two operands.
    ///
    /// # Errors
    ///
    /// Want of memory. The sequences stay as they were.
    pub fn binop(&mut self, op: BinaryOp) -> Result<(), AllocError>
        ensures { Edits self.old (pushes (Instr.Binop op)) result self.new }
    {
        self.instr(Instr::Binop { op })
    }

    /// Appends an operator on three operands.
    ///
    /// # Errors
    ///
    /// Want of memory. The sequences stay as they were.
    pub fn tern_op(&mut self, op: TernaryOp) -> Result<(), AllocError>
        ensures { Edits self.old (pushes (Instr.TernOp op)) result self.new }
    {
        self.instr(Instr::TernOp { op })
    }

    /// Appends `i64.add128`.
    ///
    /// # Errors
    ///
    /// Want of memory. The sequences stay as they were.
    pub fn i64_add128(&mut self) -> Result<(), AllocError>
        ensures { Edits self.old (pushes Instr.I64Add128) result self.new }
    {
        self.instr(Instr::I64Add128)
    }

    /// Appends `i64.sub128`.
    ///
    /// # Errors
    ///
    /// Want of memory. The sequences stay as they were.
    pub fn i64_sub128(&mut self) -> Result<(), AllocError>
        ensures { Edits self.old (pushes Instr.I64Sub128) result self.new }
    {
        self.instr(Instr::I64Sub128)
    }

    /// Appends `v128.bitselect`.
    ///
    /// # Errors
    ///
    /// Want of memory. The sequences stay as they were.
    pub fn v128_bitselect(&mut self) -> Result<(), AllocError>
        ensures { Edits self.old (pushes Instr.V128Bitselect) result self.new }
    {
        self.instr(Instr::V128Bitselect)
    }

    /// Appends `i8x16.swizzle`.
    ///
    /// # Errors
    ///
    /// Want of memory. The sequences stay as they were.
    pub fn i8x16_swizzle(&mut self) -> Result<(), AllocError>
        ensures { Edits self.old (pushes Instr.I8x16Swizzle) result self.new }
    {
        self.instr(Instr::I8x16Swizzle)
    }

    /// Appends `i8x16.shuffle`.
    ///
    /// # Errors
    ///
    /// Want of memory. The sequences stay as they were.
    pub fn i8x16_shuffle(&mut self, indices: ShuffleIndices) -> Result<(), AllocError>
        ensures { Edits self.old (pushes (Instr.I8x16Shuffle indices)) result self.new }
    {
        self.instr(Instr::I8x16Shuffle { indices })
    }

    /// Appends `local.get`.
    ///
    /// # Errors
    ///
    /// Want of memory. The sequences stay as they were.
    pub fn local_get(&mut self, local: LocalId) -> Result<(), AllocError>
        ensures { Edits self.old (pushes (Instr.LocalGet local)) result self.new }
    {
        self.instr(Instr::LocalGet { local })
    }

    /// Appends `local.set`.
    ///
    /// # Errors
    ///
    /// Want of memory. The sequences stay as they were.
    pub fn local_set(&mut self, local: LocalId) -> Result<(), AllocError>
        ensures { Edits self.old (pushes (Instr.LocalSet local)) result self.new }
    {
        self.instr(Instr::LocalSet { local })
    }

    /// Appends `local.tee`.
    ///
    /// # Errors
    ///
    /// Want of memory. The sequences stay as they were.
    pub fn local_tee(&mut self, local: LocalId) -> Result<(), AllocError>
        ensures { Edits self.old (pushes (Instr.LocalTee local)) result self.new }
    {
        self.instr(Instr::LocalTee { local })
    }

    /// Appends `global.get`.
    ///
    /// # Errors
    ///
    /// Want of memory. The sequences stay as they were.
    pub fn global_get(&mut self, global: GlobalId) -> Result<(), AllocError>
        ensures { Edits self.old (pushes (Instr.GlobalGet global)) result self.new }
    {
        self.instr(Instr::GlobalGet { global })
    }

    /// Appends `global.set`.
    ///
    /// # Errors
    ///
    /// Want of memory. The sequences stay as they were.
    pub fn global_set(&mut self, global: GlobalId) -> Result<(), AllocError>
        ensures { Edits self.old (pushes (Instr.GlobalSet global)) result self.new }
    {
        self.instr(Instr::GlobalSet { global })
    }

    /// Appends the constant of a 32-bit integer.
    ///
    /// # Errors
    ///
    /// Want of memory. The sequences stay as they were.
    pub fn i32_const(&mut self, value: i32) -> Result<(), AllocError>
        ensures { Edits self.old (pushes (Instr.Const (Constant.I32 value))) result self.new }
    {
        self.const_(Value::I32(value))
    }

    /// Appends the constant of a 64-bit integer.
    ///
    /// # Errors
    ///
    /// Want of memory. The sequences stay as they were.
    pub fn i64_const(&mut self, value: i64) -> Result<(), AllocError>
        ensures { Edits self.old (pushes (Instr.Const (Constant.I64 value))) result self.new }
    {
        self.const_(Value::I64(value))
    }

    /// Appends the constant of a 32-bit float, given by its bits.
    ///
    /// # Errors
    ///
    /// Want of memory. The sequences stay as they were.
    pub fn f32_const(&mut self, bits: u32) -> Result<(), AllocError>
        ensures { Edits self.old (pushes (Instr.Const (Constant.F32 bits))) result self.new }
    {
        self.const_(Value::F32(bits))
    }

    /// Appends the constant of a 64-bit float, given by its bits.
    ///
    /// # Errors
    ///
    /// Want of memory. The sequences stay as they were.
    pub fn f64_const(&mut self, bits: u64) -> Result<(), AllocError>
        ensures { Edits self.old (pushes (Instr.Const (Constant.F64 bits))) result self.new }
    {
        self.const_(Value::F64(bits))
    }
}
