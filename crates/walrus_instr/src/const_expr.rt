//! Constant expressions (Core Specification, constant expressions).
ghost use Rattle.std.specs.Prelude.{◌≡◌, [], ◌∷◌, ◌++◌, IfOk, IfSome, MatchResult};
ghost use Rattle.std.specs.Option.{unwrap_or};
ghost use Rattle.walrus_instr.specs.Constants.{const_of, ops_of, short_form, short_of};
ghost use Rattle.walrus_instr.specs.declared.const_expr.ConstExpr.TheVariants.{Extended};
ghost use Rattle.walrus_instr.specs.Copies.{IsExprCopy};

use crate::bits::Bits128;
use crate::instr::Value;
use std::alloc::AllocError;
use walrus_types::RefType;
use walrus_types::arena::{FunctionId, GlobalId, TypeId};

/// An operator of a constant expression. Floats are their bits.
#[derive(Clone, Copy, PartialEq, Eq)]
pub enum ConstOp {
    I32Const(i32),
    I64Const(i64),
    F32Const(u32),
    F64Const(u64),
    V128Const(Bits128),
    GlobalGet(GlobalId),
    RefNull(RefType),
    RefFunc(FunctionId),
    I32Add,
    I32Sub,
    I32Mul,
    I64Add,
    I64Sub,
    I64Mul,
    RefI31,
    StructNew(TypeId),
    StructNewDefault(TypeId),
    ArrayNew(TypeId),
    ArrayNewDefault(TypeId),
    /// The type and the number of elements.
    ArrayNewFixed(TypeId, u32),
    AnyConvertExtern,
    ExternConvertAny,
}

/// A constant expression: initial values, offsets of segments, items of segments.
#[derive(Drop)]
pub enum ConstExpr {
    /// One constant.
    Value(Value),
    /// What a global holds.
    Global(GlobalId),
    /// A null reference of the type's heap type.
    RefNull(RefType),
    /// A reference to a function.
    RefFunc(FunctionId),
    /// Operators in their order, without the `end`.
    Extended(Vec<ConstOp>),
}

impl From<Value> for ConstOp {
    ghost from_gives = { λ value op. op ≡ const_of value };

    /// The operator that pushes the constant.
    fn from(value: Value) -> Self {
        match value {
            Value::I32(n) => ConstOp::I32Const(n),
            Value::I64(n) => ConstOp::I64Const(n),
            Value::F32(bits) => ConstOp::F32Const(bits),
            Value::F64(bits) => ConstOp::F64Const(bits),
            Value::V128(bits) => ConstOp::V128Const(bits),
        }
    }
}

impl ConstOp {
    // The operator as an expression of its own, where it has a short form.
    fn as_expr(self) -> Option<ConstExpr>
        ensures short { result ≡ short_form self }
        ensures ops { IfSome result (λ expr. ops_of expr ≡ self ∷ []) }
    {
        match self {
            ConstOp::I32Const(n) => Some(ConstExpr::Value(Value::I32(n))),
            ConstOp::I64Const(n) => Some(ConstExpr::Value(Value::I64(n))),
            ConstOp::F32Const(bits) => Some(ConstExpr::Value(Value::F32(bits))),
            ConstOp::F64Const(bits) => Some(ConstExpr::Value(Value::F64(bits))),
            ConstOp::V128Const(bits) => Some(ConstExpr::Value(Value::V128(bits))),
            ConstOp::GlobalGet(global) => Some(ConstExpr::Global(global)),
            ConstOp::RefNull(ty) => Some(ConstExpr::RefNull(ty)),
            ConstOp::RefFunc(func) => Some(ConstExpr::RefFunc(func)),
            _ => None,
        }
    }
}

impl ConstExpr {
    // The short form of an expression of these operators, where it has one.
    fn short(ops: &[ConstOp]) -> Option<ConstExpr>
        ensures short { result ≡ short_of ops.now }
        ensures ops { IfSome result (λ expr. ops_of expr ≡ ops.now) }
    {
        match ops {
            [op] => op.as_expr(),
            _ => None,
        }
    }

    /// The expression of these operators: in its short form, where a single operator has one.
    pub fn from_ops(ops: Vec<ConstOp>) -> Self
        ensures ops { ops_of result ≡ ops.items }
        ensures short { result ≡ unwrap_or (short_of ops.items) (Extended ops) }
    {
        match ConstExpr::short(ops.as_slice()) {
            Some(expr) => expr,
            None => ConstExpr::Extended(ops),
        }
    }

    /// Appends the operators to a list.
    ///
    /// # Errors
    ///
    /// Want of memory. The list stays as it was.
    pub fn push_ops(&self, ops: &mut Vec<ConstOp>) -> Result<(), AllocError>
        ensures { MatchResult result (λ _. ops.new.items ≡ ops.old.items ++ ops_of self.now) (λ _. ops.new.items ≡ ops.old.items) }
    {
        match self {
            ConstExpr::Value(value) => ops.push(ConstOp::from(*value))?,
            ConstExpr::Global(global) => ops.push(ConstOp::GlobalGet(*global))?,
            ConstExpr::RefNull(ty) => ops.push(ConstOp::RefNull(*ty))?,
            ConstExpr::RefFunc(func) => ops.push(ConstOp::RefFunc(*func))?,
            ConstExpr::Extended(more) => ops.extend_from_slice(more.as_slice())?,
        }
        Ok(())
    }

    /// An equal expression.
    ///
    /// # Errors
    ///
    /// Want of memory.
    pub fn clone(&self) -> Result<Self, AllocError>
        ensures { IfOk result (λ copy. IsExprCopy self.now copy) }
    {
        match self {
            ConstExpr::Value(value) => Ok(ConstExpr::Value(*value)),
            ConstExpr::Global(global) => Ok(ConstExpr::Global(*global)),
            ConstExpr::RefNull(ty) => Ok(ConstExpr::RefNull(*ty)),
            ConstExpr::RefFunc(func) => Ok(ConstExpr::RefFunc(*func)),
            ConstExpr::Extended(ops) => Ok(ConstExpr::Extended(ops.clone()?)),
        }
    }
}
