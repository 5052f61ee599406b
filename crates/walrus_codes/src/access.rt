//! Codes of loads and atomic operators (Core Specification, binary format: memory instructions; the proposal on threads).
ghost use Rattle.std.specs.Prelude.{◌≡◌, ◌<◌};
ghost use Rattle.walrus_codes.specs.Access.{load_code, width_place, first_code, rmw_code, cmpxchg_code};

use crate::code::atomic;
use walrus_instr::{AtomicOp, AtomicWidth, ExtendedLoad, LoadKind};
use wasm_operators::OpCode;

/// The code of a load.
pub fn code_of_load(kind: LoadKind) -> OpCode
    ensures { result ≡ load_code kind }
{
    match kind {
        LoadKind::I32 { atomic: false } => code!(0, 0x28),
        LoadKind::I64 { atomic: false } => code!(0, 0x29),
        LoadKind::F32 => code!(0, 0x2a),
        LoadKind::F64 => code!(0, 0x2b),
        LoadKind::I32_8 {
            kind: ExtendedLoad::SignExtend,
        } => code!(0, 0x2c),
        LoadKind::I32_8 {
            kind: ExtendedLoad::ZeroExtend,
        } => code!(0, 0x2d),
        LoadKind::I32_16 {
            kind: ExtendedLoad::SignExtend,
        } => code!(0, 0x2e),
        LoadKind::I32_16 {
            kind: ExtendedLoad::ZeroExtend,
        } => code!(0, 0x2f),
        LoadKind::I64_8 {
            kind: ExtendedLoad::SignExtend,
        } => code!(0, 0x30),
        LoadKind::I64_8 {
            kind: ExtendedLoad::ZeroExtend,
        } => code!(0, 0x31),
        LoadKind::I64_16 {
            kind: ExtendedLoad::SignExtend,
        } => code!(0, 0x32),
        LoadKind::I64_16 {
            kind: ExtendedLoad::ZeroExtend,
        } => code!(0, 0x33),
        LoadKind::I64_32 {
            kind: ExtendedLoad::SignExtend,
        } => code!(0, 0x34),
        LoadKind::I64_32 {
            kind: ExtendedLoad::ZeroExtend,
        } => code!(0, 0x35),
        LoadKind::V128 => code!(0xfd, 0),
        LoadKind::I32 { atomic: true } => code!(0xfe, 16),
        LoadKind::I64 { atomic: true } => code!(0xfe, 17),
        LoadKind::I32_8 {
            kind: ExtendedLoad::ZeroExtendAtomic,
        } => code!(0xfe, 18),
        LoadKind::I32_16 {
            kind: ExtendedLoad::ZeroExtendAtomic,
        } => code!(0xfe, 19),
        LoadKind::I64_8 {
            kind: ExtendedLoad::ZeroExtendAtomic,
        } => code!(0xfe, 20),
        LoadKind::I64_16 {
            kind: ExtendedLoad::ZeroExtendAtomic,
        } => code!(0xfe, 21),
        LoadKind::I64_32 {
            kind: ExtendedLoad::ZeroExtendAtomic,
        } => code!(0xfe, 22),
    }
}

// The place of a width in the order of codes.
fn place_of(width: AtomicWidth) -> u32
    ensures place { result ≡ width_place width }
    ensures small { result < 7 }
{
    match width {
        AtomicWidth::I32 => 0,
        AtomicWidth::I64 => 1,
        AtomicWidth::I32_8 => 2,
        AtomicWidth::I32_16 => 3,
        AtomicWidth::I64_8 => 4,
        AtomicWidth::I64_16 => 5,
        AtomicWidth::I64_32 => 6,
    }
}

// The code of a change at the first width.
fn first_of(op: AtomicOp) -> u32
    ensures first { result ≡ first_code op }
    ensures small { result < 72 }
{
    match op {
        AtomicOp::Add => 30,
        AtomicOp::Sub => 37,
        AtomicOp::And => 44,
        AtomicOp::Or => 51,
        AtomicOp::Xor => 58,
        AtomicOp::Xchg => 65,
    }
}

/// The code of an atomic change of this width.
pub fn code_of_rmw(op: AtomicOp, width: AtomicWidth) -> OpCode
    ensures { result ≡ rmw_code op width }
{
    atomic(first_of(op) + place_of(width))
}

/// The code of a compare and exchange of this width.
pub fn code_of_cmpxchg(width: AtomicWidth) -> OpCode
    ensures { result ≡ cmpxchg_code width }
{
    atomic(72 + place_of(width))
}
