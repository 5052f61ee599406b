//! What constant expressions and their operators name.
ghost use Rattle.walrus_walks.specs.ConstEvents.{op_names, expr_names};

use crate::visit::{Visit, visit_all, visit_ref_type};
use crate::visitor::Visitor;
use walrus_instr::{ConstExpr, ConstOp, Value};

impl Visit for ConstOp {
    ghost tells = { op_names };

    fn visit<V: Visitor>(&self, visitor: &mut V) {
        match self {
            ConstOp::I32Const(n) => visitor.visit_value(&Value::I32(*n)),
            ConstOp::I64Const(n) => visitor.visit_value(&Value::I64(*n)),
            ConstOp::F32Const(bits) => visitor.visit_value(&Value::F32(*bits)),
            ConstOp::F64Const(bits) => visitor.visit_value(&Value::F64(*bits)),
            ConstOp::V128Const(bits) => visitor.visit_value(&Value::V128(*bits)),
            ConstOp::GlobalGet(global) => visitor.visit_global_id(global),
            ConstOp::RefNull(ty) => visit_ref_type(visitor, ty),
            ConstOp::RefFunc(func) => visitor.visit_function_id(func),
            ConstOp::StructNew(ty)
            | ConstOp::StructNewDefault(ty)
            | ConstOp::ArrayNew(ty)
            | ConstOp::ArrayNewDefault(ty)
            | ConstOp::ArrayNewFixed(ty, _) => visitor.visit_type_id(ty),
            ConstOp::I32Add
            | ConstOp::I32Sub
            | ConstOp::I32Mul
            | ConstOp::I64Add
            | ConstOp::I64Sub
            | ConstOp::I64Mul
            | ConstOp::RefI31
            | ConstOp::AnyConvertExtern
            | ConstOp::ExternConvertAny => {}
        }
    }
}

/// What its operators tell, in their order.
impl Visit for ConstExpr {
    ghost tells = { expr_names };

    fn visit<V: Visitor>(&self, visitor: &mut V) {
        match self {
            ConstExpr::Value(value) => visitor.visit_value(value),
            ConstExpr::Global(global) => visitor.visit_global_id(global),
            ConstExpr::RefNull(ty) => visit_ref_type(visitor, ty),
            ConstExpr::RefFunc(func) => visitor.visit_function_id(func),
            ConstExpr::Extended(ops) => visit_all(visitor, ops.as_slice()),
        }
    }
}
