//! Instructions of a code and of immediates that name something: what they name is looked up, then the code is.
ghost use Rattle.std.specs.Prelude.{◌≡◌};
ghost use Rattle.std.specs.Option.{ok_or};
ghost use Rattle.walrus_operators.specs.wasm_operators.Items.{Access, Byte, Functions, Globals, Heap, Locals, Names, Number, Types};
ghost use Rattle.walrus_index_maps.specs.Views.{ids};
ghost use Rattle.walrus_pairing.specs.Looks.{id_of, word};
ghost use Rattle.walrus_pairing.specs.Read.{pair_at, single_at};
ghost use Rattle.walrus_pairing.specs.Spaces.{first_of, name_read, pair_read, second_of, space};

use crate::code_tables::simd_of;
use crate::error::PairError;
use crate::instructions::{
    access_instr, arg_of, heap_instr, name_instr, pair_instr, type_number_instr,
};
use crate::spaces::{Pair, Target, first_of, second_of};
use crate::types::read_heap;
use walrus_arena::{FunctionId, Id};
use walrus_index_maps::{IndicesToIds, UnknownIndex};
use walrus_instr::Instr;
use walrus_operators::immediate_forms::MemoryAccess;
use walrus_operators::operator_table::OpCode;
use wasm_ref_types::HeapType;

/// An instruction, none, or why it isn't read.
pub(crate) type Read = Result<Option<Instr>, PairError>;

// The id that was found, or the caller answers that there is none.
macro_rules! id {
    ($found:expr) => {
        match $found {
            Ok(id) => id,
            Err(unknown) => return Err(PairError::Unknown(unknown.0)),
        }
    };
}

// What follows for the frequent kinds is inlined, so that where the kind is known no other is tested.
#[inline(always)]
pub(crate) fn read_local(code: OpCode, n: u32, function: FunctionId, maps: &IndicesToIds) -> Read
    ensures { result ≡ single_at (id_of (ids maps.now) function) code (Names Locals n) }
{
    let local = id!(maps.get_local(function, n));
    if code.prefix != 0 {
        return Ok(None);
    }
    match code.number {
        0x20 => Ok(Some(Instr::LocalGet { local })),
        0x21 => Ok(Some(Instr::LocalSet { local })),
        0x22 => Ok(Some(Instr::LocalTee { local })),
        _ => Ok(None),
    }
}

#[inline(always)]
pub(crate) fn read_global(code: OpCode, n: u32, maps: &IndicesToIds) -> Read
    ensures { result ≡ single_at (id_of (ids maps.now) 0) code (Names Globals n) }
{
    let global = id!(maps.get_global(n));
    if code.prefix != 0 {
        return Ok(None);
    }
    match code.number {
        0x23 => Ok(Some(Instr::GlobalGet { global })),
        0x24 => Ok(Some(Instr::GlobalSet { global })),
        _ => Ok(None),
    }
}

#[inline(always)]
pub(crate) fn read_function(code: OpCode, n: u32, maps: &IndicesToIds) -> Read
    ensures { result ≡ single_at (id_of (ids maps.now) 0) code (Names Functions n) }
{
    let func = id!(maps.get_func(n));
    if code.prefix != 0 {
        return Ok(None);
    }
    match code.number {
        0x10 => Ok(Some(Instr::Call { func })),
        0x12 => Ok(Some(Instr::ReturnCall { func })),
        0xd2 => Ok(Some(Instr::RefFunc { func })),
        _ => Ok(None),
    }
}

#[inline(always)]
pub(crate) fn read_access(code: OpCode, access: MemoryAccess, maps: &IndicesToIds) -> Read
    ensures { result ≡ single_at (id_of (ids maps.now) 0) code (Access «access») }
{
    let memory = id!(maps.get_memory(access.memory));
    let arg = got!(arg_of(access));
    Ok(access_instr(code, memory, arg))
}

pub(crate) fn read_lane_access(
    code: OpCode,
    access: MemoryAccess,
    lane: u8,
    maps: &IndicesToIds,
) -> Read
    ensures { result ≡ pair_at (id_of (ids maps.now) 0) code (Access «access») (Byte lane) }
{
    let memory = id!(maps.get_memory(access.memory));
    let arg = got!(arg_of(access));
    match simd_of(code, Some(lane)) {
        Some(kind) => Ok(Some(Instr::LoadSimd { memory, kind, arg })),
        None => Ok(None),
    }
}

pub(crate) fn read_counted(code: OpCode, ty: u32, n: u32, maps: &IndicesToIds) -> Read
    ensures { result ≡ pair_at (id_of (ids maps.now) 0) code (Names Types ty) (Number n) }
{
    let id = id!(maps.get_type(ty));
    Ok(type_number_instr(code, id, n))
}

pub(crate) fn read_reference(code: OpCode, ty: HeapType, maps: &IndicesToIds) -> Read
    ensures { result ≡ single_at (id_of (ids maps.now) 0) code (Heap ty) }
{
    let own = got!(read_heap(ty, maps));
    Ok(heap_instr(code, own))
}

// The number of the id that was found.
fn number_in<S>(found: Result<Id<S>, UnknownIndex>) -> Result<u32, UnknownIndex>
    ensures { result ≡ found }
{
    match found {
        Ok(id) => Ok(id.number()),
        Err(unknown) => Err(unknown),
    }
}

// The number of the id that an index names.
fn id_at(target: Target, n: u32, maps: &IndicesToIds) -> Result<u32, UnknownIndex>
    ensures { result ≡ ok_or (id_of (ids maps.now) 0 (space target) n) (record { 0 = word (space target) }) }
{
    match target {
        Target::Type => number_in(maps.get_type(n)),
        Target::Table => number_in(maps.get_table(n)),
        Target::Memory => number_in(maps.get_memory(n)),
        Target::Tag => number_in(maps.get_tag(n)),
        Target::Element => number_in(maps.get_element(n)),
        Target::Data => number_in(maps.get_data(n)),
    }
}

/// Of one name, but for functions, globals and locals.
pub(crate) fn read_name(code: OpCode, target: Target, n: u32, maps: &IndicesToIds) -> Read
    ensures { result ≡ name_read (id_of (ids maps.now) 0) code (space target) n }
{
    let id = id!(id_at(target, n, maps));
    Ok(name_instr(code, target, id))
}

/// Of two names.
pub(crate) fn read_pair(code: OpCode, pair: Pair, m: u32, n: u32, maps: &IndicesToIds) -> Read
    ensures { result ≡ pair_read (id_of (ids maps.now) 0) code (space (first_of pair)) m (space (second_of pair)) n }
{
    let first = id!(id_at(first_of(pair), m, maps));
    let second = id!(id_at(second_of(pair), n, maps));
    Ok(pair_instr(code, pair, first, second))
}
