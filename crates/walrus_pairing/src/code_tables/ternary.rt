//! Codes of the operators of three operands (Core Specification, binary format: vector instructions).
ghost use Rattle.std.specs.Prelude.{◌≡◌};
ghost use Rattle.walrus_codes.specs.Ternary.{ternary_code};

use walrus_instr::TernaryOp;
use walrus_operators::operator_table::OpCode;

/// The code of an operator of three operands.
pub(crate) fn code_of_ternary(op: TernaryOp) -> OpCode
    ensures { result ≡ ternary_code op }
{
    match op {
        TernaryOp::F32x4RelaxedMadd => code!(0xfd, 261),
        TernaryOp::F32x4RelaxedNmadd => code!(0xfd, 262),
        TernaryOp::F64x2RelaxedMadd => code!(0xfd, 263),
        TernaryOp::F64x2RelaxedNmadd => code!(0xfd, 264),
        TernaryOp::I8x16RelaxedLaneselect => code!(0xfd, 265),
        TernaryOp::I16x8RelaxedLaneselect => code!(0xfd, 266),
        TernaryOp::I32x4RelaxedLaneselect => code!(0xfd, 267),
        TernaryOp::I64x2RelaxedLaneselect => code!(0xfd, 268),
        TernaryOp::I32x4RelaxedDotI8x16I7x16AddS => code!(0xfd, 275),
    }
}
