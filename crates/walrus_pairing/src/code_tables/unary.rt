//! Operators of one operand by their codes, and their codes (Core Specification, binary format: numeric instructions, vector instructions).
ghost use Rattle.std.specs.Prelude.{◌≡◌, None};
ghost use Rattle.walrus_codes.specs.Runs.{in_runs};
ghost use Rattle.walrus_codes.specs.Unary.{unary_lanes, bare_unary_at, unary_at, unary_code, unary_lane};

use crate::code_tables::code::pick;
use crate::code_tables::numeric::{Numeric, numeric_of};
use walrus_codes::saturating;
use walrus_instr::UnaryOp;
use walrus_operators::operator_table::OpCode;

#[tactic(auto, unfolding(walrus_codes::specs::Unary::unary_lanes))]
fn unary_of_lane(number: u32, idx: u8) -> Option<UnaryOp>
    ensures { result ≡ in_runs (unary_lanes idx) number }
{
    match number {
        21..=22 => pick(
            &[
                UnaryOp::I8x16ExtractLaneS { idx },
                UnaryOp::I8x16ExtractLaneU { idx },
            ],
            number - 21,
        ),
        24..=25 => pick(
            &[
                UnaryOp::I16x8ExtractLaneS { idx },
                UnaryOp::I16x8ExtractLaneU { idx },
            ],
            number - 24,
        ),
        27 => Some(UnaryOp::I32x4ExtractLane { idx }),
        29 => Some(UnaryOp::I64x2ExtractLane { idx }),
        31 => Some(UnaryOp::F32x4ExtractLane { idx }),
        33 => Some(UnaryOp::F64x2ExtractLane { idx }),
        _ => None,
    }
}

fn bare_unary_of(code: OpCode) -> Option<UnaryOp>
    ensures { result ≡ bare_unary_at code }
{
    match numeric_of(code) {
        Numeric::Unary(op) => Some(op),
        _ => None,
    }
}

/// The operator of one operand that has this code, and this lane behind it, if one has.
#[inline(always)]
pub(crate) fn unary_of(code: OpCode, lane: Option<u8>) -> Option<UnaryOp>
    ensures { result ≡ unary_at code lane }
{
    match lane {
        None => bare_unary_of(code),
        Some(idx) => {
            if code.prefix != 0xfd {
                return None;
            }
            unary_of_lane(code.number, idx)
        }
    }
}

/// The code of an operator of one operand.
pub fn code_of_unary(op: UnaryOp) -> OpCode
    ensures { result ≡ unary_code op }
{
    match op {
        UnaryOp::I32Eqz => code!(0, 0x45),
        UnaryOp::I64Eqz => code!(0, 0x50),
        UnaryOp::I32Clz => code!(0, 0x67),
        UnaryOp::I32Ctz => code!(0, 0x68),
        UnaryOp::I32Popcnt => code!(0, 0x69),
        UnaryOp::I64Clz => code!(0, 0x79),
        UnaryOp::I64Ctz => code!(0, 0x7a),
        UnaryOp::I64Popcnt => code!(0, 0x7b),
        UnaryOp::F32Abs => code!(0, 0x8b),
        UnaryOp::F32Neg => code!(0, 0x8c),
        UnaryOp::F32Ceil => code!(0, 0x8d),
        UnaryOp::F32Floor => code!(0, 0x8e),
        UnaryOp::F32Trunc => code!(0, 0x8f),
        UnaryOp::F32Nearest => code!(0, 0x90),
        UnaryOp::F32Sqrt => code!(0, 0x91),
        UnaryOp::F64Abs => code!(0, 0x99),
        UnaryOp::F64Neg => code!(0, 0x9a),
        UnaryOp::F64Ceil => code!(0, 0x9b),
        UnaryOp::F64Floor => code!(0, 0x9c),
        UnaryOp::F64Trunc => code!(0, 0x9d),
        UnaryOp::F64Nearest => code!(0, 0x9e),
        UnaryOp::F64Sqrt => code!(0, 0x9f),
        UnaryOp::I32WrapI64 => code!(0, 0xa7),
        UnaryOp::I32TruncSF32 => code!(0, 0xa8),
        UnaryOp::I32TruncUF32 => code!(0, 0xa9),
        UnaryOp::I32TruncSF64 => code!(0, 0xaa),
        UnaryOp::I32TruncUF64 => code!(0, 0xab),
        UnaryOp::I64ExtendSI32 => code!(0, 0xac),
        UnaryOp::I64ExtendUI32 => code!(0, 0xad),
        UnaryOp::I64TruncSF32 => code!(0, 0xae),
        UnaryOp::I64TruncUF32 => code!(0, 0xaf),
        UnaryOp::I64TruncSF64 => code!(0, 0xb0),
        UnaryOp::I64TruncUF64 => code!(0, 0xb1),
        UnaryOp::F32ConvertSI32 => code!(0, 0xb2),
        UnaryOp::F32ConvertUI32 => code!(0, 0xb3),
        UnaryOp::F32ConvertSI64 => code!(0, 0xb4),
        UnaryOp::F32ConvertUI64 => code!(0, 0xb5),
        UnaryOp::F32DemoteF64 => code!(0, 0xb6),
        UnaryOp::F64ConvertSI32 => code!(0, 0xb7),
        UnaryOp::F64ConvertUI32 => code!(0, 0xb8),
        UnaryOp::F64ConvertSI64 => code!(0, 0xb9),
        UnaryOp::F64ConvertUI64 => code!(0, 0xba),
        UnaryOp::F64PromoteF32 => code!(0, 0xbb),
        UnaryOp::I32ReinterpretF32 => code!(0, 0xbc),
        UnaryOp::I64ReinterpretF64 => code!(0, 0xbd),
        UnaryOp::F32ReinterpretI32 => code!(0, 0xbe),
        UnaryOp::F64ReinterpretI64 => code!(0, 0xbf),
        UnaryOp::I32Extend8S => code!(0, 0xc0),
        UnaryOp::I32Extend16S => code!(0, 0xc1),
        UnaryOp::I64Extend8S => code!(0, 0xc2),
        UnaryOp::I64Extend16S => code!(0, 0xc3),
        UnaryOp::I64Extend32S => code!(0, 0xc4),
        UnaryOp::I32TruncSatF32S => saturating(0),
        UnaryOp::I32TruncSatF32U => saturating(1),
        UnaryOp::I32TruncSatF64S => saturating(2),
        UnaryOp::I32TruncSatF64U => saturating(3),
        UnaryOp::I64TruncSatF32S => saturating(4),
        UnaryOp::I64TruncSatF32U => saturating(5),
        UnaryOp::I64TruncSatF64S => saturating(6),
        UnaryOp::I64TruncSatF64U => saturating(7),
        UnaryOp::I8x16Splat => code!(0xfd, 15),
        UnaryOp::I16x8Splat => code!(0xfd, 16),
        UnaryOp::I32x4Splat => code!(0xfd, 17),
        UnaryOp::I64x2Splat => code!(0xfd, 18),
        UnaryOp::F32x4Splat => code!(0xfd, 19),
        UnaryOp::F64x2Splat => code!(0xfd, 20),
        UnaryOp::I8x16ExtractLaneS { .. } => code!(0xfd, 21),
        UnaryOp::I8x16ExtractLaneU { .. } => code!(0xfd, 22),
        UnaryOp::I16x8ExtractLaneS { .. } => code!(0xfd, 24),
        UnaryOp::I16x8ExtractLaneU { .. } => code!(0xfd, 25),
        UnaryOp::I32x4ExtractLane { .. } => code!(0xfd, 27),
        UnaryOp::I64x2ExtractLane { .. } => code!(0xfd, 29),
        UnaryOp::F32x4ExtractLane { .. } => code!(0xfd, 31),
        UnaryOp::F64x2ExtractLane { .. } => code!(0xfd, 33),
        UnaryOp::V128Not => code!(0xfd, 77),
        UnaryOp::V128AnyTrue => code!(0xfd, 83),
        UnaryOp::F32x4DemoteF64x2Zero => code!(0xfd, 94),
        UnaryOp::F64x2PromoteLowF32x4 => code!(0xfd, 95),
        UnaryOp::I8x16Abs => code!(0xfd, 96),
        UnaryOp::I8x16Neg => code!(0xfd, 97),
        UnaryOp::I8x16Popcnt => code!(0xfd, 98),
        UnaryOp::I8x16AllTrue => code!(0xfd, 99),
        UnaryOp::I8x16Bitmask => code!(0xfd, 100),
        UnaryOp::F32x4Ceil => code!(0xfd, 103),
        UnaryOp::F32x4Floor => code!(0xfd, 104),
        UnaryOp::F32x4Trunc => code!(0xfd, 105),
        UnaryOp::F32x4Nearest => code!(0xfd, 106),
        UnaryOp::F64x2Ceil => code!(0xfd, 116),
        UnaryOp::F64x2Floor => code!(0xfd, 117),
        UnaryOp::F64x2Trunc => code!(0xfd, 122),
        UnaryOp::I16x8ExtaddPairwiseI8x16S => code!(0xfd, 124),
        UnaryOp::I16x8ExtaddPairwiseI8x16U => code!(0xfd, 125),
        UnaryOp::I32x4ExtaddPairwiseI16x8S => code!(0xfd, 126),
        UnaryOp::I32x4ExtaddPairwiseI16x8U => code!(0xfd, 127),
        UnaryOp::I16x8Abs => code!(0xfd, 128),
        UnaryOp::I16x8Neg => code!(0xfd, 129),
        UnaryOp::I16x8AllTrue => code!(0xfd, 131),
        UnaryOp::I16x8Bitmask => code!(0xfd, 132),
        UnaryOp::I16x8ExtendLowI8x16S => code!(0xfd, 135),
        UnaryOp::I16x8ExtendHighI8x16S => code!(0xfd, 136),
        UnaryOp::I16x8ExtendLowI8x16U => code!(0xfd, 137),
        UnaryOp::I16x8ExtendHighI8x16U => code!(0xfd, 138),
        UnaryOp::F64x2Nearest => code!(0xfd, 148),
        UnaryOp::I32x4Abs => code!(0xfd, 160),
        UnaryOp::I32x4Neg => code!(0xfd, 161),
        UnaryOp::I32x4AllTrue => code!(0xfd, 163),
        UnaryOp::I32x4Bitmask => code!(0xfd, 164),
        UnaryOp::I32x4ExtendLowI16x8S => code!(0xfd, 167),
        UnaryOp::I32x4ExtendHighI16x8S => code!(0xfd, 168),
        UnaryOp::I32x4ExtendLowI16x8U => code!(0xfd, 169),
        UnaryOp::I32x4ExtendHighI16x8U => code!(0xfd, 170),
        UnaryOp::I64x2Abs => code!(0xfd, 192),
        UnaryOp::I64x2Neg => code!(0xfd, 193),
        UnaryOp::I64x2AllTrue => code!(0xfd, 195),
        UnaryOp::I64x2Bitmask => code!(0xfd, 196),
        UnaryOp::I64x2ExtendLowI32x4S => code!(0xfd, 199),
        UnaryOp::I64x2ExtendHighI32x4S => code!(0xfd, 200),
        UnaryOp::I64x2ExtendLowI32x4U => code!(0xfd, 201),
        UnaryOp::I64x2ExtendHighI32x4U => code!(0xfd, 202),
        UnaryOp::F32x4Abs => code!(0xfd, 224),
        UnaryOp::F32x4Neg => code!(0xfd, 225),
        UnaryOp::F32x4Sqrt => code!(0xfd, 227),
        UnaryOp::F64x2Abs => code!(0xfd, 236),
        UnaryOp::F64x2Neg => code!(0xfd, 237),
        UnaryOp::F64x2Sqrt => code!(0xfd, 239),
        UnaryOp::I32x4TruncSatF32x4S => code!(0xfd, 248),
        UnaryOp::I32x4TruncSatF32x4U => code!(0xfd, 249),
        UnaryOp::F32x4ConvertI32x4S => code!(0xfd, 250),
        UnaryOp::F32x4ConvertI32x4U => code!(0xfd, 251),
        UnaryOp::I32x4TruncSatF64x2SZero => code!(0xfd, 252),
        UnaryOp::I32x4TruncSatF64x2UZero => code!(0xfd, 253),
        UnaryOp::F64x2ConvertLowI32x4S => code!(0xfd, 254),
        UnaryOp::F64x2ConvertLowI32x4U => code!(0xfd, 255),
        UnaryOp::I32x4RelaxedTruncF32x4S => code!(0xfd, 257),
        UnaryOp::I32x4RelaxedTruncF32x4U => code!(0xfd, 258),
        UnaryOp::I32x4RelaxedTruncF64x2SZero => code!(0xfd, 259),
        UnaryOp::I32x4RelaxedTruncF64x2UZero => code!(0xfd, 260),
    }
}

/// The lane that an operator of one operand holds, if it holds one.
pub fn lane_of_unary(op: UnaryOp) -> Option<u8>
    ensures { result ≡ unary_lane op }
{
    match op {
        UnaryOp::I8x16ExtractLaneS { idx }
        | UnaryOp::I8x16ExtractLaneU { idx }
        | UnaryOp::I16x8ExtractLaneS { idx }
        | UnaryOp::I16x8ExtractLaneU { idx }
        | UnaryOp::I32x4ExtractLane { idx }
        | UnaryOp::I64x2ExtractLane { idx }
        | UnaryOp::F32x4ExtractLane { idx }
        | UnaryOp::F64x2ExtractLane { idx } => Some(idx),
        _ => None,
    }
}
