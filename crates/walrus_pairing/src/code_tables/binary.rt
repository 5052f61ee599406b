//! Codes of the operators of two operands (Core Specification, binary format: numeric instructions, vector instructions).
ghost use Rattle.std.specs.Prelude.{◌≡◌, None};
ghost use Rattle.walrus_codes.specs.Runs.{in_runs};
ghost use Rattle.walrus_codes.specs.Binary.{binary_lanes, bare_binary_at, binary_at, binary_code, binary_lane};

use crate::code_tables::numeric::{Numeric, numeric_of};
use walrus_instr::BinaryOp;
use walrus_operators::operator_table::OpCode;

#[tactic(auto, unfolding(walrus_codes::specs::Binary::binary_lanes))]
fn binary_of_lane(number: u32, idx: u8) -> Option<BinaryOp>
    ensures { result ≡ in_runs (binary_lanes idx) number }
{
    match number {
        23 => Some(BinaryOp::I8x16ReplaceLane { idx }),
        26 => Some(BinaryOp::I16x8ReplaceLane { idx }),
        28 => Some(BinaryOp::I32x4ReplaceLane { idx }),
        30 => Some(BinaryOp::I64x2ReplaceLane { idx }),
        32 => Some(BinaryOp::F32x4ReplaceLane { idx }),
        34 => Some(BinaryOp::F64x2ReplaceLane { idx }),
        _ => None,
    }
}

fn bare_binary_of(code: OpCode) -> Option<BinaryOp>
    ensures { result ≡ bare_binary_at code }
{
    match numeric_of(code) {
        Numeric::Binary(op) => Some(op),
        _ => None,
    }
}

/// The operator of two operands that has this code, and this lane behind it, if one has.
#[inline(always)]
pub(crate) fn binary_of(code: OpCode, lane: Option<u8>) -> Option<BinaryOp>
    ensures { result ≡ binary_at code lane }
{
    match lane {
        None => bare_binary_of(code),
        Some(idx) => {
            if code.prefix != 0xfd {
                return None;
            }
            binary_of_lane(code.number, idx)
        }
    }
}

/// The code of an operator of two operands.
pub fn code_of_binary(op: BinaryOp) -> OpCode
    ensures { result ≡ binary_code op }
{
    match op {
        BinaryOp::I32Eq => code!(0, 0x46),
        BinaryOp::I32Ne => code!(0, 0x47),
        BinaryOp::I32LtS => code!(0, 0x48),
        BinaryOp::I32LtU => code!(0, 0x49),
        BinaryOp::I32GtS => code!(0, 0x4a),
        BinaryOp::I32GtU => code!(0, 0x4b),
        BinaryOp::I32LeS => code!(0, 0x4c),
        BinaryOp::I32LeU => code!(0, 0x4d),
        BinaryOp::I32GeS => code!(0, 0x4e),
        BinaryOp::I32GeU => code!(0, 0x4f),
        BinaryOp::I64Eq => code!(0, 0x51),
        BinaryOp::I64Ne => code!(0, 0x52),
        BinaryOp::I64LtS => code!(0, 0x53),
        BinaryOp::I64LtU => code!(0, 0x54),
        BinaryOp::I64GtS => code!(0, 0x55),
        BinaryOp::I64GtU => code!(0, 0x56),
        BinaryOp::I64LeS => code!(0, 0x57),
        BinaryOp::I64LeU => code!(0, 0x58),
        BinaryOp::I64GeS => code!(0, 0x59),
        BinaryOp::I64GeU => code!(0, 0x5a),
        BinaryOp::F32Eq => code!(0, 0x5b),
        BinaryOp::F32Ne => code!(0, 0x5c),
        BinaryOp::F32Lt => code!(0, 0x5d),
        BinaryOp::F32Gt => code!(0, 0x5e),
        BinaryOp::F32Le => code!(0, 0x5f),
        BinaryOp::F32Ge => code!(0, 0x60),
        BinaryOp::F64Eq => code!(0, 0x61),
        BinaryOp::F64Ne => code!(0, 0x62),
        BinaryOp::F64Lt => code!(0, 0x63),
        BinaryOp::F64Gt => code!(0, 0x64),
        BinaryOp::F64Le => code!(0, 0x65),
        BinaryOp::F64Ge => code!(0, 0x66),
        BinaryOp::I32Add => code!(0, 0x6a),
        BinaryOp::I32Sub => code!(0, 0x6b),
        BinaryOp::I32Mul => code!(0, 0x6c),
        BinaryOp::I32DivS => code!(0, 0x6d),
        BinaryOp::I32DivU => code!(0, 0x6e),
        BinaryOp::I32RemS => code!(0, 0x6f),
        BinaryOp::I32RemU => code!(0, 0x70),
        BinaryOp::I32And => code!(0, 0x71),
        BinaryOp::I32Or => code!(0, 0x72),
        BinaryOp::I32Xor => code!(0, 0x73),
        BinaryOp::I32Shl => code!(0, 0x74),
        BinaryOp::I32ShrS => code!(0, 0x75),
        BinaryOp::I32ShrU => code!(0, 0x76),
        BinaryOp::I32Rotl => code!(0, 0x77),
        BinaryOp::I32Rotr => code!(0, 0x78),
        BinaryOp::I64Add => code!(0, 0x7c),
        BinaryOp::I64Sub => code!(0, 0x7d),
        BinaryOp::I64Mul => code!(0, 0x7e),
        BinaryOp::I64DivS => code!(0, 0x7f),
        BinaryOp::I64DivU => code!(0, 0x80),
        BinaryOp::I64RemS => code!(0, 0x81),
        BinaryOp::I64RemU => code!(0, 0x82),
        BinaryOp::I64And => code!(0, 0x83),
        BinaryOp::I64Or => code!(0, 0x84),
        BinaryOp::I64Xor => code!(0, 0x85),
        BinaryOp::I64Shl => code!(0, 0x86),
        BinaryOp::I64ShrS => code!(0, 0x87),
        BinaryOp::I64ShrU => code!(0, 0x88),
        BinaryOp::I64Rotl => code!(0, 0x89),
        BinaryOp::I64Rotr => code!(0, 0x8a),
        BinaryOp::F32Add => code!(0, 0x92),
        BinaryOp::F32Sub => code!(0, 0x93),
        BinaryOp::F32Mul => code!(0, 0x94),
        BinaryOp::F32Div => code!(0, 0x95),
        BinaryOp::F32Min => code!(0, 0x96),
        BinaryOp::F32Max => code!(0, 0x97),
        BinaryOp::F32Copysign => code!(0, 0x98),
        BinaryOp::F64Add => code!(0, 0xa0),
        BinaryOp::F64Sub => code!(0, 0xa1),
        BinaryOp::F64Mul => code!(0, 0xa2),
        BinaryOp::F64Div => code!(0, 0xa3),
        BinaryOp::F64Min => code!(0, 0xa4),
        BinaryOp::F64Max => code!(0, 0xa5),
        BinaryOp::F64Copysign => code!(0, 0xa6),
        BinaryOp::I64MulWideS => code!(0xfc, 21),
        BinaryOp::I64MulWideU => code!(0xfc, 22),
        BinaryOp::I8x16ReplaceLane { .. } => code!(0xfd, 23),
        BinaryOp::I16x8ReplaceLane { .. } => code!(0xfd, 26),
        BinaryOp::I32x4ReplaceLane { .. } => code!(0xfd, 28),
        BinaryOp::I64x2ReplaceLane { .. } => code!(0xfd, 30),
        BinaryOp::F32x4ReplaceLane { .. } => code!(0xfd, 32),
        BinaryOp::F64x2ReplaceLane { .. } => code!(0xfd, 34),
        BinaryOp::I8x16Eq => code!(0xfd, 35),
        BinaryOp::I8x16Ne => code!(0xfd, 36),
        BinaryOp::I8x16LtS => code!(0xfd, 37),
        BinaryOp::I8x16LtU => code!(0xfd, 38),
        BinaryOp::I8x16GtS => code!(0xfd, 39),
        BinaryOp::I8x16GtU => code!(0xfd, 40),
        BinaryOp::I8x16LeS => code!(0xfd, 41),
        BinaryOp::I8x16LeU => code!(0xfd, 42),
        BinaryOp::I8x16GeS => code!(0xfd, 43),
        BinaryOp::I8x16GeU => code!(0xfd, 44),
        BinaryOp::I16x8Eq => code!(0xfd, 45),
        BinaryOp::I16x8Ne => code!(0xfd, 46),
        BinaryOp::I16x8LtS => code!(0xfd, 47),
        BinaryOp::I16x8LtU => code!(0xfd, 48),
        BinaryOp::I16x8GtS => code!(0xfd, 49),
        BinaryOp::I16x8GtU => code!(0xfd, 50),
        BinaryOp::I16x8LeS => code!(0xfd, 51),
        BinaryOp::I16x8LeU => code!(0xfd, 52),
        BinaryOp::I16x8GeS => code!(0xfd, 53),
        BinaryOp::I16x8GeU => code!(0xfd, 54),
        BinaryOp::I32x4Eq => code!(0xfd, 55),
        BinaryOp::I32x4Ne => code!(0xfd, 56),
        BinaryOp::I32x4LtS => code!(0xfd, 57),
        BinaryOp::I32x4LtU => code!(0xfd, 58),
        BinaryOp::I32x4GtS => code!(0xfd, 59),
        BinaryOp::I32x4GtU => code!(0xfd, 60),
        BinaryOp::I32x4LeS => code!(0xfd, 61),
        BinaryOp::I32x4LeU => code!(0xfd, 62),
        BinaryOp::I32x4GeS => code!(0xfd, 63),
        BinaryOp::I32x4GeU => code!(0xfd, 64),
        BinaryOp::F32x4Eq => code!(0xfd, 65),
        BinaryOp::F32x4Ne => code!(0xfd, 66),
        BinaryOp::F32x4Lt => code!(0xfd, 67),
        BinaryOp::F32x4Gt => code!(0xfd, 68),
        BinaryOp::F32x4Le => code!(0xfd, 69),
        BinaryOp::F32x4Ge => code!(0xfd, 70),
        BinaryOp::F64x2Eq => code!(0xfd, 71),
        BinaryOp::F64x2Ne => code!(0xfd, 72),
        BinaryOp::F64x2Lt => code!(0xfd, 73),
        BinaryOp::F64x2Gt => code!(0xfd, 74),
        BinaryOp::F64x2Le => code!(0xfd, 75),
        BinaryOp::F64x2Ge => code!(0xfd, 76),
        BinaryOp::V128And => code!(0xfd, 78),
        BinaryOp::V128Andnot => code!(0xfd, 79),
        BinaryOp::V128Or => code!(0xfd, 80),
        BinaryOp::V128Xor => code!(0xfd, 81),
        BinaryOp::I8x16NarrowI16x8S => code!(0xfd, 101),
        BinaryOp::I8x16NarrowI16x8U => code!(0xfd, 102),
        BinaryOp::I8x16Shl => code!(0xfd, 107),
        BinaryOp::I8x16ShrS => code!(0xfd, 108),
        BinaryOp::I8x16ShrU => code!(0xfd, 109),
        BinaryOp::I8x16Add => code!(0xfd, 110),
        BinaryOp::I8x16AddSatS => code!(0xfd, 111),
        BinaryOp::I8x16AddSatU => code!(0xfd, 112),
        BinaryOp::I8x16Sub => code!(0xfd, 113),
        BinaryOp::I8x16SubSatS => code!(0xfd, 114),
        BinaryOp::I8x16SubSatU => code!(0xfd, 115),
        BinaryOp::I8x16MinS => code!(0xfd, 118),
        BinaryOp::I8x16MinU => code!(0xfd, 119),
        BinaryOp::I8x16MaxS => code!(0xfd, 120),
        BinaryOp::I8x16MaxU => code!(0xfd, 121),
        BinaryOp::I8x16AvgrU => code!(0xfd, 123),
        BinaryOp::I16x8Q15mulrSatS => code!(0xfd, 130),
        BinaryOp::I16x8NarrowI32x4S => code!(0xfd, 133),
        BinaryOp::I16x8NarrowI32x4U => code!(0xfd, 134),
        BinaryOp::I16x8Shl => code!(0xfd, 139),
        BinaryOp::I16x8ShrS => code!(0xfd, 140),
        BinaryOp::I16x8ShrU => code!(0xfd, 141),
        BinaryOp::I16x8Add => code!(0xfd, 142),
        BinaryOp::I16x8AddSatS => code!(0xfd, 143),
        BinaryOp::I16x8AddSatU => code!(0xfd, 144),
        BinaryOp::I16x8Sub => code!(0xfd, 145),
        BinaryOp::I16x8SubSatS => code!(0xfd, 146),
        BinaryOp::I16x8SubSatU => code!(0xfd, 147),
        BinaryOp::I16x8Mul => code!(0xfd, 149),
        BinaryOp::I16x8MinS => code!(0xfd, 150),
        BinaryOp::I16x8MinU => code!(0xfd, 151),
        BinaryOp::I16x8MaxS => code!(0xfd, 152),
        BinaryOp::I16x8MaxU => code!(0xfd, 153),
        BinaryOp::I16x8AvgrU => code!(0xfd, 155),
        BinaryOp::I16x8ExtmulLowI8x16S => code!(0xfd, 156),
        BinaryOp::I16x8ExtmulHighI8x16S => code!(0xfd, 157),
        BinaryOp::I16x8ExtmulLowI8x16U => code!(0xfd, 158),
        BinaryOp::I16x8ExtmulHighI8x16U => code!(0xfd, 159),
        BinaryOp::I32x4Shl => code!(0xfd, 171),
        BinaryOp::I32x4ShrS => code!(0xfd, 172),
        BinaryOp::I32x4ShrU => code!(0xfd, 173),
        BinaryOp::I32x4Add => code!(0xfd, 174),
        BinaryOp::I32x4Sub => code!(0xfd, 177),
        BinaryOp::I32x4Mul => code!(0xfd, 181),
        BinaryOp::I32x4MinS => code!(0xfd, 182),
        BinaryOp::I32x4MinU => code!(0xfd, 183),
        BinaryOp::I32x4MaxS => code!(0xfd, 184),
        BinaryOp::I32x4MaxU => code!(0xfd, 185),
        BinaryOp::I32x4DotI16x8S => code!(0xfd, 186),
        BinaryOp::I32x4ExtmulLowI16x8S => code!(0xfd, 188),
        BinaryOp::I32x4ExtmulHighI16x8S => code!(0xfd, 189),
        BinaryOp::I32x4ExtmulLowI16x8U => code!(0xfd, 190),
        BinaryOp::I32x4ExtmulHighI16x8U => code!(0xfd, 191),
        BinaryOp::I64x2Shl => code!(0xfd, 203),
        BinaryOp::I64x2ShrS => code!(0xfd, 204),
        BinaryOp::I64x2ShrU => code!(0xfd, 205),
        BinaryOp::I64x2Add => code!(0xfd, 206),
        BinaryOp::I64x2Sub => code!(0xfd, 209),
        BinaryOp::I64x2Mul => code!(0xfd, 213),
        BinaryOp::I64x2Eq => code!(0xfd, 214),
        BinaryOp::I64x2Ne => code!(0xfd, 215),
        BinaryOp::I64x2LtS => code!(0xfd, 216),
        BinaryOp::I64x2GtS => code!(0xfd, 217),
        BinaryOp::I64x2LeS => code!(0xfd, 218),
        BinaryOp::I64x2GeS => code!(0xfd, 219),
        BinaryOp::I64x2ExtmulLowI32x4S => code!(0xfd, 220),
        BinaryOp::I64x2ExtmulHighI32x4S => code!(0xfd, 221),
        BinaryOp::I64x2ExtmulLowI32x4U => code!(0xfd, 222),
        BinaryOp::I64x2ExtmulHighI32x4U => code!(0xfd, 223),
        BinaryOp::F32x4Add => code!(0xfd, 228),
        BinaryOp::F32x4Sub => code!(0xfd, 229),
        BinaryOp::F32x4Mul => code!(0xfd, 230),
        BinaryOp::F32x4Div => code!(0xfd, 231),
        BinaryOp::F32x4Min => code!(0xfd, 232),
        BinaryOp::F32x4Max => code!(0xfd, 233),
        BinaryOp::F32x4Pmin => code!(0xfd, 234),
        BinaryOp::F32x4Pmax => code!(0xfd, 235),
        BinaryOp::F64x2Add => code!(0xfd, 240),
        BinaryOp::F64x2Sub => code!(0xfd, 241),
        BinaryOp::F64x2Mul => code!(0xfd, 242),
        BinaryOp::F64x2Div => code!(0xfd, 243),
        BinaryOp::F64x2Min => code!(0xfd, 244),
        BinaryOp::F64x2Max => code!(0xfd, 245),
        BinaryOp::F64x2Pmin => code!(0xfd, 246),
        BinaryOp::F64x2Pmax => code!(0xfd, 247),
        BinaryOp::I8x16RelaxedSwizzle => code!(0xfd, 256),
        BinaryOp::F32x4RelaxedMin => code!(0xfd, 269),
        BinaryOp::F32x4RelaxedMax => code!(0xfd, 270),
        BinaryOp::F64x2RelaxedMin => code!(0xfd, 271),
        BinaryOp::F64x2RelaxedMax => code!(0xfd, 272),
        BinaryOp::I16x8RelaxedQ15mulrS => code!(0xfd, 273),
        BinaryOp::I16x8RelaxedDotI8x16I7x16S => code!(0xfd, 274),
    }
}

/// The lane that an operator of two operands holds, if it holds one.
pub fn lane_of_binary(op: BinaryOp) -> Option<u8>
    ensures { result ≡ binary_lane op }
{
    match op {
        BinaryOp::I8x16ReplaceLane { idx }
        | BinaryOp::I16x8ReplaceLane { idx }
        | BinaryOp::I32x4ReplaceLane { idx }
        | BinaryOp::I64x2ReplaceLane { idx }
        | BinaryOp::F32x4ReplaceLane { idx }
        | BinaryOp::F64x2ReplaceLane { idx } => Some(idx),
        _ => None,
    }
}
