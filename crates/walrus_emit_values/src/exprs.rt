//! Constant expressions.

ghost use Rattle.std.specs.Prelude.{◌≡◌, [], ◌∷◌, ◌++◌, map};
ghost use Rattle.std.specs.List.{flat_map};
ghost use Rattle.wasm_operators.specs.Items as items;
ghost use Rattle.walrus_index_maps.specs.Views.{indices};
ghost use Rattle.walrus_pairing.specs.Looks.{number_of};
ghost use Rattle.walrus_emit_parts.specs.Due.{Writes, written};
ghost use Rattle.walrus_module_items.specs.Words.{const_seen, own_expr};
ghost use Rattle.walrus_emit_due.specs.Values.{expr, items_due, operator};

use crate::types::{write_index, write_own_heap};
use walrus_arena::TypeId;
use walrus_emit_parts::{
    Entry, write_bits32, write_bits64, write_byte, write_bytes, write_code, write_each,
    write_number, write_signed,
};
use walrus_errors::Result;
use walrus_index_maps::IdsToIndices;
use walrus_instr::{ConstExpr, ConstOp};
use walrus_operators::operator_table::OpCode;
use wasm_formats::Space;

// The code of an operator.
fn code(op: &ConstOp) -> OpCode
    ensures { result ≡ (const_seen op.now).code }
{
    let (prefix, number) = match op {
        ConstOp::I32Const(_) => (0, 0x41),
        ConstOp::I64Const(_) => (0, 0x42),
        ConstOp::F32Const(_) => (0, 0x43),
        ConstOp::F64Const(_) => (0, 0x44),
        ConstOp::V128Const(_) => (0xfd, 12),
        ConstOp::GlobalGet(_) => (0, 0x23),
        ConstOp::RefNull(_) => (0, 0xd0),
        ConstOp::RefFunc(_) => (0, 0xd2),
        ConstOp::I32Add => (0, 0x6a),
        ConstOp::I32Sub => (0, 0x6b),
        ConstOp::I32Mul => (0, 0x6c),
        ConstOp::I64Add => (0, 0x7c),
        ConstOp::I64Sub => (0, 0x7d),
        ConstOp::I64Mul => (0, 0x7e),
        ConstOp::RefI31 => (0xfb, 28),
        ConstOp::StructNew(_) => (0xfb, 0),
        ConstOp::StructNewDefault(_) => (0xfb, 1),
        ConstOp::ArrayNew(_) => (0xfb, 6),
        ConstOp::ArrayNewDefault(_) => (0xfb, 7),
        ConstOp::ArrayNewFixed(_, _) => (0xfb, 8),
        ConstOp::AnyConvertExtern => (0xfb, 26),
        ConstOp::ExternConvertAny => (0xfb, 27),
    };
    OpCode { prefix, number }
}

// A type, and a number.
#[tactic(auto, using(walrus_emit_parts::proofs::Lemmas::writes_on, walrus_emit_parts::proofs::Lemmas::refused_front))]
fn write_counted(out: &mut Vec<u8>, ty: TypeId, count: u32, maps: &IdsToIndices) -> Result<()>
    ensures { Writes (items_due (number_of (indices maps.now) 0) (items.Names items.Types ty ∷ items.Number count ∷ [])) out.old.items out.new.items result }
{
    put!(write_index(out, Space::Type, maps.get_type_index(ty)));
    write_number(out, u64::from(count))
}

// What stands behind the code.
#[tactic(auto, using(walrus_emit_parts::proofs::Lemmas::nothing))]
fn write_items(out: &mut Vec<u8>, op: &ConstOp, maps: &IdsToIndices) -> Result<()>
    ensures { Writes (items_due (number_of (indices maps.now) 0) (const_seen op.now).items) out.old.items out.new.items result }
{
    match op {
        ConstOp::I32Const(n) => write_signed(out, i64::from(*n)),
        ConstOp::I64Const(n) => write_signed(out, *n),
        ConstOp::F32Const(bits) => write_bits32(out, *bits),
        ConstOp::F64Const(bits) => write_bits64(out, *bits),
        ConstOp::V128Const(bits) => write_bytes(out, &bits.get().to_le_bytes()),
        ConstOp::GlobalGet(id) => write_index(out, Space::Global, maps.get_global_index(*id)),
        ConstOp::RefNull(ty) => write_own_heap(out, ty.heap_type, maps),
        ConstOp::RefFunc(id) => write_index(out, Space::Function, maps.get_func_index(*id)),
        ConstOp::StructNew(ty) => write_index(out, Space::Type, maps.get_type_index(*ty)),
        ConstOp::StructNewDefault(ty) => write_index(out, Space::Type, maps.get_type_index(*ty)),
        ConstOp::ArrayNew(ty) => write_index(out, Space::Type, maps.get_type_index(*ty)),
        ConstOp::ArrayNewDefault(ty) => write_index(out, Space::Type, maps.get_type_index(*ty)),
        ConstOp::ArrayNewFixed(ty, count) => write_counted(out, *ty, *count, maps),
        ConstOp::I32Add
        | ConstOp::I32Sub
        | ConstOp::I32Mul
        | ConstOp::I64Add
        | ConstOp::I64Sub
        | ConstOp::I64Mul
        | ConstOp::RefI31
        | ConstOp::AnyConvertExtern
        | ConstOp::ExternConvertAny => Ok(()),
    }
}

// An operator.
#[tactic(auto, using(walrus_emit_parts::proofs::Lemmas::writes_on, walrus_emit_parts::proofs::Lemmas::refused_front))]
fn write_operator(out: &mut Vec<u8>, op: &ConstOp, maps: &IdsToIndices) -> Result<()>
    ensures { Writes (operator (number_of (indices maps.now) 0) (const_seen op.now)) out.old.items out.new.items result }
{
    put!(write_code(out, code(op)));
    write_items(out, op, maps)
}

// Operators by these numbers.
#[derive(Clone, Copy)]
struct Operators<'a>(&'a IdsToIndices);

impl<'a> Entry<ConstOp> for Operators<'a> {
    ghost use Rattle.wasm_operators.specs.Operators.{Seen};
    ghost use Rattle.walrus_index_maps.specs.Views.{indices};
    ghost use Rattle.walrus_pairing.specs.Looks.{number_of};
    ghost use Rattle.walrus_module_items.specs.Words.{const_seen};
    ghost use Rattle.walrus_emit_due.specs.Values.{operator};

    ghost Seen = { Seen };

    ghost see = { const_seen };

    ghost due = { λ w. operator (number_of (indices w.0.now) 0) };

    fn write(&self, out: &mut Vec<u8>, item: &ConstOp) -> Result<()> {
        write_operator(out, item, self.0)
    }
}

// Operators, one behind another, and the `end`.
#[tactic(auto, using(walrus_emit_parts::proofs::Lemmas::writes_on, walrus_emit_parts::proofs::Lemmas::refused_front))]
fn write_ops(out: &mut Vec<u8>, ops: &[ConstOp], maps: &IdsToIndices) -> Result<()>
    ensures { Writes (expr (number_of (indices maps.now) 0) (map const_seen ops.now)) out.old.items out.new.items result }
{
    put!(write_each(out, &Operators(maps), ops));
    write_byte(out, 0x0b)
}

/// A constant expression, with its `end`.
///
/// # Errors
///
/// Want of memory; `DeadReference` where it names what has no number; `Unsupported` of exact types.
pub fn write_expr(out: &mut Vec<u8>, it: &ConstExpr, maps: &IdsToIndices) -> Result<()>
    ensures { Writes (expr (number_of (indices maps.now) 0) (own_expr it.now)) out.old.items out.new.items result }
{
    match it {
        ConstExpr::Value(value) => write_ops(out, &[ConstOp::from(*value)], maps),
        ConstExpr::Global(id) => write_ops(out, &[ConstOp::GlobalGet(*id)], maps),
        ConstExpr::RefNull(ty) => write_ops(out, &[ConstOp::RefNull(*ty)], maps),
        ConstExpr::RefFunc(id) => write_ops(out, &[ConstOp::RefFunc(*id)], maps),
        ConstExpr::Extended(ops) => write_ops(out, ops.as_slice(), maps),
    }
}
