//! Codes of stores and vector accesses (Core Specification, binary format: memory instructions, vector instructions; the proposal on
//! threads).
ghost use Rattle.std.specs.Prelude.{◌≡◌};
ghost use Rattle.walrus_codes.specs.Access.{store_code, simd_code, simd_lane};

use walrus_instr::{LoadSimdKind, StoreKind};
use walrus_operators::operator_table::OpCode;

/// The code of a store.
pub fn code_of_store(kind: StoreKind) -> OpCode
    ensures { result ≡ store_code kind }
{
    match kind {
        StoreKind::I32 { atomic: false } => code!(0, 0x36),
        StoreKind::I64 { atomic: false } => code!(0, 0x37),
        StoreKind::F32 => code!(0, 0x38),
        StoreKind::F64 => code!(0, 0x39),
        StoreKind::I32_8 { atomic: false } => code!(0, 0x3a),
        StoreKind::I32_16 { atomic: false } => code!(0, 0x3b),
        StoreKind::I64_8 { atomic: false } => code!(0, 0x3c),
        StoreKind::I64_16 { atomic: false } => code!(0, 0x3d),
        StoreKind::I64_32 { atomic: false } => code!(0, 0x3e),
        StoreKind::V128 => code!(0xfd, 11),
        StoreKind::I32 { atomic: true } => code!(0xfe, 23),
        StoreKind::I64 { atomic: true } => code!(0xfe, 24),
        StoreKind::I32_8 { atomic: true } => code!(0xfe, 25),
        StoreKind::I32_16 { atomic: true } => code!(0xfe, 26),
        StoreKind::I64_8 { atomic: true } => code!(0xfe, 27),
        StoreKind::I64_16 { atomic: true } => code!(0xfe, 28),
        StoreKind::I64_32 { atomic: true } => code!(0xfe, 29),
    }
}

/// The code of a vector access.
pub(crate) fn code_of_simd(kind: LoadSimdKind) -> OpCode
    ensures { result ≡ simd_code kind }
{
    match kind {
        LoadSimdKind::V128Load8x8S => code!(0xfd, 1),
        LoadSimdKind::V128Load8x8U => code!(0xfd, 2),
        LoadSimdKind::V128Load16x4S => code!(0xfd, 3),
        LoadSimdKind::V128Load16x4U => code!(0xfd, 4),
        LoadSimdKind::V128Load32x2S => code!(0xfd, 5),
        LoadSimdKind::V128Load32x2U => code!(0xfd, 6),
        LoadSimdKind::Splat8 => code!(0xfd, 7),
        LoadSimdKind::Splat16 => code!(0xfd, 8),
        LoadSimdKind::Splat32 => code!(0xfd, 9),
        LoadSimdKind::Splat64 => code!(0xfd, 10),
        LoadSimdKind::V128Load32Zero => code!(0xfd, 92),
        LoadSimdKind::V128Load64Zero => code!(0xfd, 93),
        LoadSimdKind::V128Load8Lane(_) => code!(0xfd, 84),
        LoadSimdKind::V128Load16Lane(_) => code!(0xfd, 85),
        LoadSimdKind::V128Load32Lane(_) => code!(0xfd, 86),
        LoadSimdKind::V128Load64Lane(_) => code!(0xfd, 87),
        LoadSimdKind::V128Store8Lane(_) => code!(0xfd, 88),
        LoadSimdKind::V128Store16Lane(_) => code!(0xfd, 89),
        LoadSimdKind::V128Store32Lane(_) => code!(0xfd, 90),
        LoadSimdKind::V128Store64Lane(_) => code!(0xfd, 91),
    }
}

/// The lane that a vector access holds, if it holds one.
pub(crate) fn lane_of_simd(kind: LoadSimdKind) -> Option<u8>
    ensures { result ≡ simd_lane kind }
{
    match kind {
        LoadSimdKind::V128Load8Lane(lane)
        | LoadSimdKind::V128Load16Lane(lane)
        | LoadSimdKind::V128Load32Lane(lane)
        | LoadSimdKind::V128Load64Lane(lane)
        | LoadSimdKind::V128Store8Lane(lane)
        | LoadSimdKind::V128Store16Lane(lane)
        | LoadSimdKind::V128Store32Lane(lane)
        | LoadSimdKind::V128Store64Lane(lane) => Some(lane),
        _ => None,
    }
}
