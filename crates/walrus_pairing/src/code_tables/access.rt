//! Loads, stores and atomic operators by their codes (Core Specification, binary format: memory instructions, vector instructions; the
//! proposal on threads).
ghost use Rattle.std.specs.Prelude.{◌≡◌, slice_get};
ghost use Rattle.walrus_codes.specs.Runs.{in_runs};
ghost use Rattle.walrus_codes.specs.Access.{byte_loads, atomic_loads, load_at, byte_stores, atomic_stores, store_at, vector_accesses, lane_accesses, simd_at, widths_in_order, at_widths, atomic_changes, rmw_at, cmpxchg_at};

use crate::code_tables::code::pick;
use walrus_instr::{AtomicOp, AtomicWidth, ExtendedLoad, LoadKind, LoadSimdKind, StoreKind};
use walrus_operators::operator_table::OpCode;

#[tactic(auto, unfolding(walrus_codes::specs::Access::byte_loads))]
fn load_of_byte(number: u32) -> Option<LoadKind>
    ensures { result ≡ in_runs byte_loads number }
{
    match number {
        0x28..=0x35 => pick(
            &[
                LoadKind::I32 { atomic: false },
                LoadKind::I64 { atomic: false },
                LoadKind::F32,
                LoadKind::F64,
                LoadKind::I32_8 {
                    kind: ExtendedLoad::SignExtend,
                },
                LoadKind::I32_8 {
                    kind: ExtendedLoad::ZeroExtend,
                },
                LoadKind::I32_16 {
                    kind: ExtendedLoad::SignExtend,
                },
                LoadKind::I32_16 {
                    kind: ExtendedLoad::ZeroExtend,
                },
                LoadKind::I64_8 {
                    kind: ExtendedLoad::SignExtend,
                },
                LoadKind::I64_8 {
                    kind: ExtendedLoad::ZeroExtend,
                },
                LoadKind::I64_16 {
                    kind: ExtendedLoad::SignExtend,
                },
                LoadKind::I64_16 {
                    kind: ExtendedLoad::ZeroExtend,
                },
                LoadKind::I64_32 {
                    kind: ExtendedLoad::SignExtend,
                },
                LoadKind::I64_32 {
                    kind: ExtendedLoad::ZeroExtend,
                },
            ],
            number - 0x28,
        ),
        _ => None,
    }
}

#[tactic(auto, unfolding(walrus_codes::specs::Access::atomic_loads))]
fn load_of_atomic(number: u32) -> Option<LoadKind>
    ensures { result ≡ in_runs atomic_loads number }
{
    match number {
        16..=22 => pick(
            &[
                LoadKind::I32 { atomic: true },
                LoadKind::I64 { atomic: true },
                LoadKind::I32_8 {
                    kind: ExtendedLoad::ZeroExtendAtomic,
                },
                LoadKind::I32_16 {
                    kind: ExtendedLoad::ZeroExtendAtomic,
                },
                LoadKind::I64_8 {
                    kind: ExtendedLoad::ZeroExtendAtomic,
                },
                LoadKind::I64_16 {
                    kind: ExtendedLoad::ZeroExtendAtomic,
                },
                LoadKind::I64_32 {
                    kind: ExtendedLoad::ZeroExtendAtomic,
                },
            ],
            number - 16,
        ),
        _ => None,
    }
}

/// The load that has this code, if one has.
#[inline(always)]
pub(crate) fn load_of(code: OpCode) -> Option<LoadKind>
    ensures { result ≡ load_at code }
{
    match code.prefix {
        0 => load_of_byte(code.number),
        0xfd if code.number == 0 => Some(LoadKind::V128),
        0xfe => load_of_atomic(code.number),
        _ => None,
    }
}

#[tactic(auto, unfolding(walrus_codes::specs::Access::byte_stores))]
fn store_of_byte(number: u32) -> Option<StoreKind>
    ensures { result ≡ in_runs byte_stores number }
{
    match number {
        0x36..=0x3e => pick(
            &[
                StoreKind::I32 { atomic: false },
                StoreKind::I64 { atomic: false },
                StoreKind::F32,
                StoreKind::F64,
                StoreKind::I32_8 { atomic: false },
                StoreKind::I32_16 { atomic: false },
                StoreKind::I64_8 { atomic: false },
                StoreKind::I64_16 { atomic: false },
                StoreKind::I64_32 { atomic: false },
            ],
            number - 0x36,
        ),
        _ => None,
    }
}

#[tactic(auto, unfolding(walrus_codes::specs::Access::atomic_stores))]
fn store_of_atomic(number: u32) -> Option<StoreKind>
    ensures { result ≡ in_runs atomic_stores number }
{
    match number {
        23..=29 => pick(
            &[
                StoreKind::I32 { atomic: true },
                StoreKind::I64 { atomic: true },
                StoreKind::I32_8 { atomic: true },
                StoreKind::I32_16 { atomic: true },
                StoreKind::I64_8 { atomic: true },
                StoreKind::I64_16 { atomic: true },
                StoreKind::I64_32 { atomic: true },
            ],
            number - 23,
        ),
        _ => None,
    }
}

/// The store that has this code, if one has.
pub(crate) fn store_of(code: OpCode) -> Option<StoreKind>
    ensures { result ≡ store_at code }
{
    match code.prefix {
        0 => store_of_byte(code.number),
        0xfd if code.number == 11 => Some(StoreKind::V128),
        0xfe => store_of_atomic(code.number),
        _ => None,
    }
}

#[tactic(auto, unfolding(walrus_codes::specs::Access::vector_accesses))]
fn bare_simd_of(number: u32) -> Option<LoadSimdKind>
    ensures { result ≡ in_runs vector_accesses number }
{
    match number {
        1..=10 => pick(
            &[
                LoadSimdKind::V128Load8x8S,
                LoadSimdKind::V128Load8x8U,
                LoadSimdKind::V128Load16x4S,
                LoadSimdKind::V128Load16x4U,
                LoadSimdKind::V128Load32x2S,
                LoadSimdKind::V128Load32x2U,
                LoadSimdKind::Splat8,
                LoadSimdKind::Splat16,
                LoadSimdKind::Splat32,
                LoadSimdKind::Splat64,
            ],
            number - 1,
        ),
        92..=93 => pick(
            &[LoadSimdKind::V128Load32Zero, LoadSimdKind::V128Load64Zero],
            number - 92,
        ),
        _ => None,
    }
}

#[tactic(auto, unfolding(walrus_codes::specs::Access::lane_accesses))]
fn lane_simd_of(number: u32, lane: u8) -> Option<LoadSimdKind>
    ensures { result ≡ in_runs (lane_accesses lane) number }
{
    match number {
        84..=91 => pick(
            &[
                LoadSimdKind::V128Load8Lane(lane),
                LoadSimdKind::V128Load16Lane(lane),
                LoadSimdKind::V128Load32Lane(lane),
                LoadSimdKind::V128Load64Lane(lane),
                LoadSimdKind::V128Store8Lane(lane),
                LoadSimdKind::V128Store16Lane(lane),
                LoadSimdKind::V128Store32Lane(lane),
                LoadSimdKind::V128Store64Lane(lane),
            ],
            number - 84,
        ),
        _ => None,
    }
}

/// The vector access that has this code, and this lane behind it, if one has.
pub(crate) fn simd_of(code: OpCode, lane: Option<u8>) -> Option<LoadSimdKind>
    ensures { result ≡ simd_at code lane }
{
    if code.prefix != 0xfd {
        return None;
    }
    match lane {
        None => bare_simd_of(code.number),
        Some(lane) => lane_simd_of(code.number, lane),
    }
}

// The change at the width of this place in the order of codes.
fn at_width(op: AtomicOp, place: u32) -> Option<(AtomicOp, AtomicWidth)>
    ensures { result ≡ slice_get (at_widths op widths_in_order) place }
{
    pick(
        &[
            (op, AtomicWidth::I32),
            (op, AtomicWidth::I64),
            (op, AtomicWidth::I32_8),
            (op, AtomicWidth::I32_16),
            (op, AtomicWidth::I64_8),
            (op, AtomicWidth::I64_16),
            (op, AtomicWidth::I64_32),
        ],
        place,
    )
}

#[tactic(auto, unfolding(walrus_codes::specs::Access::atomic_changes))]
fn change_of(number: u32) -> Option<(AtomicOp, AtomicWidth)>
    ensures { result ≡ in_runs atomic_changes number }
{
    match number {
        30..=36 => at_width(AtomicOp::Add, number - 30),
        37..=43 => at_width(AtomicOp::Sub, number - 37),
        44..=50 => at_width(AtomicOp::And, number - 44),
        51..=57 => at_width(AtomicOp::Or, number - 51),
        58..=64 => at_width(AtomicOp::Xor, number - 58),
        65..=71 => at_width(AtomicOp::Xchg, number - 65),
        _ => None,
    }
}

/// The atomic change and its width that have this code, if there are such.
pub(crate) fn rmw_of(code: OpCode) -> Option<(AtomicOp, AtomicWidth)>
    ensures { result ≡ rmw_at code }
{
    if code.prefix != 0xfe {
        return None;
    }
    change_of(code.number)
}

/// The width of the compare and exchange that has this code, if one has.
pub(crate) fn cmpxchg_of(code: OpCode) -> Option<AtomicWidth>
    ensures { result ≡ cmpxchg_at code }
{
    if code.prefix != 0xfe {
        return None;
    }
    match code.number {
        72..=78 => pick(
            &[
                AtomicWidth::I32,
                AtomicWidth::I64,
                AtomicWidth::I32_8,
                AtomicWidth::I32_16,
                AtomicWidth::I64_8,
                AtomicWidth::I64_16,
                AtomicWidth::I64_32,
            ],
            code.number - 72,
        ),
        _ => None,
    }
}
