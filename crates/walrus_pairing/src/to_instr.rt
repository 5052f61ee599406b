//! The instruction of an operator.
ghost use Rattle.std.specs.Prelude.{◌≡◌, slice_get};
ghost use Rattle.walrus_operators.specs.Operators.{seen};
ghost use Rattle.walrus_index_maps.specs.Views.{ids};
ghost use Rattle.walrus_pairing.specs.Looks.{id_of};
ghost use Rattle.walrus_pairing.specs.Types.{named};
ghost use Rattle.walrus_pairing.specs.Read.{instr_at, select_at};

use crate::error::PairError;
use crate::instructions::{
    byte_instr, f32_instr, f64_instr, i32_instr, i64_instr, no_immediates_instr, run_instr,
};
use crate::named::{
    Read, read_access, read_counted, read_function, read_global, read_lane_access, read_local,
    read_name, read_pair, read_reference,
};
use crate::spaces::{pair_of, target_of};
use crate::types::{named_type, read_value};
use walrus_arena::FunctionId;
use walrus_index_maps::IndicesToIds;
use walrus_instr::Instr;
use walrus_operators::{Immediates, Operator};
use wasm_ref_types::ValType;

// Each type that the value types name is one of the module's.
fn named_types(types: &[ValType], maps: &IndicesToIds) -> Result<(), PairError>
    ensures { result ≡ named (slice_get (ids maps.now).types) types.now }
{
    for &ty in types {
        named_type(ty, maps)?;
    }
    Ok(())
}

// Of value types, of which there is to be one.
fn select_instr(types: &[ValType], maps: &IndicesToIds) -> Read
    ensures { result ≡ select_at (slice_get (ids maps.now).types) types.now }
{
    if let [ty] = types {
        let ty = got!(read_value(*ty, maps));
        return Ok(Some(Instr::Select { ty: Some(ty) }));
    }
    got!(named_types(types, maps));
    Err(PairError::Select)
}

// The same of the rarer kinds, by a function of its own, so that where the kind is known and frequent no other is tested.
#[inline(never)]
fn rare_instr(op: &Operator, function: FunctionId, maps: &IndicesToIds) -> Read
    ensures { result ≡ instr_at (id_of (ids maps.now) function) (seen op.now) }
{
    let code = op.code;
    match &op.immediates {
        Immediates::Bare => Ok(no_immediates_instr(code)),
        Immediates::Function(n) => read_function(code, *n, maps),
        Immediates::Local(n) => read_local(code, *n, function, maps),
        Immediates::Global(n) => read_global(code, *n, maps),
        Immediates::Tag(n)
        | Immediates::Type(n)
        | Immediates::Table(n)
        | Immediates::Memory(n)
        | Immediates::Data(n)
        | Immediates::Element(n) => read_name(code, target_of(&op.immediates), *n, maps),
        Immediates::TypeTable(m, n)
        | Immediates::DataMemory(m, n)
        | Immediates::MemoryMemory(m, n)
        | Immediates::ElementTable(m, n)
        | Immediates::TableTable(m, n)
        | Immediates::TypeData(m, n)
        | Immediates::TypeElement(m, n)
        | Immediates::TypeType(m, n) => read_pair(code, pair_of(&op.immediates), *m, *n, maps),
        Immediates::Select(types) => select_instr(types.as_slice(), maps),
        Immediates::Access(access) => read_access(code, *access, maps),
        Immediates::I32(n) => Ok(i32_instr(code, *n)),
        Immediates::I64(n) => Ok(i64_instr(code, *n)),
        Immediates::F32(bits) => Ok(f32_instr(code, *bits)),
        Immediates::F64(bits) => Ok(f64_instr(code, *bits)),
        Immediates::Heap(ty) => read_reference(code, *ty, maps),
        Immediates::TypeNumber(m, n) => read_counted(code, *m, *n, maps),
        Immediates::Vector(bytes) => Ok(run_instr(code, *bytes)),
        Immediates::Lane(byte) => Ok(byte_instr(code, *byte)),
        Immediates::AccessLane(access, lane) => read_lane_access(code, *access, *lane, maps),
        Immediates::Zero => Ok(byte_instr(code, 0)),
        Immediates::Block(_)
        | Immediates::TryTable(_, _)
        | Immediates::Label(_)
        | Immediates::BrTable(_, _)
        | Immediates::Cast(_, _, _, _) => Ok(None),
    }
}

/// The instruction of a plain operator in the body of this function, its names as ids; none for an operator of blocks or labels, which
/// is not paired by itself. Takes no memory.
///
/// # Errors
///
/// `Unknown` where an index names nothing: the first in the order of the immediates. Else `ContinuationType`, `Select` and
/// `Alignment`.
#[inline(always)]
pub fn instr_of(op: &Operator, function: FunctionId, maps: &IndicesToIds) -> Read
    ensures { result ≡ instr_at (id_of (ids maps.now) function) (seen op.now) }
{
    let code = op.code;
    match &op.immediates {
        Immediates::Bare => Ok(no_immediates_instr(code)),
        Immediates::Local(n) => read_local(code, *n, function, maps),
        Immediates::I32(n) => Ok(i32_instr(code, *n)),
        Immediates::I64(n) => Ok(i64_instr(code, *n)),
        Immediates::F64(bits) => Ok(f64_instr(code, *bits)),
        Immediates::Access(access) => read_access(code, *access, maps),
        Immediates::Global(n) => read_global(code, *n, maps),
        Immediates::Function(n) => read_function(code, *n, maps),
        _ => rare_instr(op, function, maps),
    }
}
