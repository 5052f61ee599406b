//! Constant expressions.
use crate::bodies::forms::{Listed, id, is_list, list, number, ref_type};
use std::alloc::{AllocError, Global};
use test_words::{cut, lower, place};
use walrus_instr::{Bits128, ConstExpr, ConstOp};

const OPS: &str =
    "i32_const i64_const f32_const f64_const v128_const global_get ref_null ref_func i32_add i64_mul ref_i31 array_new_fixed";

impl Listed for ConstOp {
    fn of(word: &[u8]) -> Self {
        let (name, rest) = cut(word, b':');
        let (first, second) = cut(rest, b':');
        let (first, second) = (number(first), number(second));
        match place(OPS.as_bytes(), name) {
            0 => ConstOp::I32Const(lower(first).cast_signed()),
            1 => ConstOp::I64Const(first.cast_signed()),
            2 => ConstOp::F32Const(lower(first)),
            3 => ConstOp::F64Const(first),
            4 => ConstOp::V128Const(Bits128::new(u128::from(first))),
            5 => ConstOp::GlobalGet(id(first)),
            6 => ConstOp::RefNull(ref_type(first)),
            7 => ConstOp::RefFunc(id(first)),
            8 => ConstOp::I32Add,
            9 => ConstOp::I64Mul,
            10 => ConstOp::RefI31,
            _ => ConstOp::ArrayNewFixed(id(first), lower(second)),
        }
    }
}

fn has_ops(alloc: Global, expr: &ConstExpr, ops: &[u8]) -> Result<bool, AllocError> {
    let mut pushed = Vec::new(alloc);
    expr.push_ops(&mut pushed)?;
    Ok(is_list(pushed.as_slice(), ops))
}

/// Whether the expression of a row and its copy have its form and its operators.
pub fn stands(alloc: Global, row: &[u8]) -> Result<bool, AllocError> {
    let (form, ops) = cut(row, b' ');
    let expr = ConstExpr::from_ops(list(alloc, ops)?);
    let is_long = matches!(expr, ConstExpr::Extended(_));
    Ok(
        is_long == (form == "long".as_bytes())
            && has_ops(alloc, &expr, ops)?
            && has_ops(alloc, &expr.clone()?, ops)?,
    )
}
