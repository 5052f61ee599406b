//! Operators of constant expressions (Core Specification, valid expressions: constant expressions).

ghost use Rattle.std.specs.Prelude.{◌≡◌, IfSome, Some, Ok};
ghost use Rattle.walrus_instr.specs.declared.instr.Instr.TheVariants as instrs;
ghost use Rattle.walrus_pairing.specs.Write.{operator_at};
ghost use Rattle.walrus_collections.specs.walrus_module_items.Words.{const_seen, itself};
ghost use Rattle.walrus_sections_into.specs.Consts.{binary_const, instr_const};

use walrus_instr::{BinaryOp, ConstOp, Instr, Value};

// The operator of a sum, a difference or a product.
#[tactic(auto, unfolding(walrus_pairing::specs::Write::operator_at))]
fn const_of_binop(op: BinaryOp) -> Option<ConstOp>
    ensures means { IfSome result (λ c. operator_at itself (instrs.Binop op) ≡ Ok (Some (const_seen c))) }
    ensures form { result ≡ binary_const op }
{
    match op {
        BinaryOp::I32Add => Some(ConstOp::I32Add),
        BinaryOp::I32Sub => Some(ConstOp::I32Sub),
        BinaryOp::I32Mul => Some(ConstOp::I32Mul),
        BinaryOp::I64Add => Some(ConstOp::I64Add),
        BinaryOp::I64Sub => Some(ConstOp::I64Sub),
        BinaryOp::I64Mul => Some(ConstOp::I64Mul),
        _ => None,
    }
}

/// The operator of a constant expression that is this instruction; none of another.
#[tactic(auto, unfolding(walrus_pairing::specs::Write::operator_at), using(crate::proofs::OperatorLemmas::value_is, crate::proofs::OperatorLemmas::null_is))]
pub fn const_of(instr: &Instr) -> Option<ConstOp>
    ensures means { IfSome result (λ c. operator_at itself instr.now ≡ Ok (Some (const_seen c))) }
    ensures form { result ≡ instr_const instr.now }
{
    match instr {
        Instr::Const { value } => Some(ConstOp::from(*value)),
        Instr::GlobalGet { global } => Some(ConstOp::GlobalGet(*global)),
        Instr::RefNull { ty } => Some(ConstOp::RefNull(*ty)),
        Instr::RefFunc { func } => Some(ConstOp::RefFunc(*func)),
        Instr::Binop { op } => const_of_binop(*op),
        Instr::RefI31 => Some(ConstOp::RefI31),
        Instr::AnyConvertExtern => Some(ConstOp::AnyConvertExtern),
        Instr::ExternConvertAny => Some(ConstOp::ExternConvertAny),
        Instr::StructNew { ty } => Some(ConstOp::StructNew(*ty)),
        Instr::StructNewDefault { ty } => Some(ConstOp::StructNewDefault(*ty)),
        Instr::ArrayNew { ty } => Some(ConstOp::ArrayNew(*ty)),
        Instr::ArrayNewDefault { ty } => Some(ConstOp::ArrayNewDefault(*ty)),
        Instr::ArrayNewFixed { ty, size } => Some(ConstOp::ArrayNewFixed(*ty, *size)),
        _ => None,
    }
}
