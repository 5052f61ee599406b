//! Operators of a code and of immediates that name ids.
ghost use Rattle.std.specs.Prelude.{◌≡◌, None, Ok, Some};
ghost use Rattle.walrus_operators.specs.wasm_operators.Items.{Types, Functions, Globals, Locals};
ghost use Rattle.walrus_index_maps.specs.Views.{indices};
ghost use Rattle.walrus_pairing.specs.Looks.{number_of};
ghost use Rattle.walrus_pairing.specs.Seen.{as_seen};
ghost use Rattle.walrus_pairing.specs.Spaces.{first_of, second_of, space, with_both, with_found};
ghost use Rattle.walrus_pairing.specs.Write.{one, counted, access, heap, log_of};

use crate::error::PairError;
use crate::spaces::{Pair, Target, first_of, second_of, space_of, with_one, with_two};
use crate::types::write_heap;
use walrus_arena::{FunctionId, GlobalId, LocalId, MemoryId, TypeId};
use walrus_forms::HeapType;
use walrus_index_maps::{IdsToIndices, Space};
use walrus_instr::MemArg;
use walrus_operators::immediate_forms::MemoryAccess;
use walrus_operators::operator_table::OpCode;
use walrus_operators::{Immediates, Operator};

/// An operator, none, or why it isn't written.
pub(crate) type Written = Result<Option<Operator>, PairError>;

// The number that was found, or the caller answers that there is none.
macro_rules! number {
    ($found:expr, $space:ident) => {
        match $found {
            Some(number) => number,
            None => return Err(PairError::Unknown(Space::$space)),
        }
    };
}

// An operator.
#[inline]
pub(crate) fn op(code: OpCode, immediates: Immediates) -> Written
    ensures { result ≡ Ok (Some (record { code = code; immediates = immediates })) }
{
    Ok(Some(Operator { code, immediates }))
}

// The same, written out: a call would be a good part of what the proof of a small function takes.
macro_rules! operator {
    ($code:expr, $immediates:expr) => {
        Ok(Some(Operator {
            code: $code,
            immediates: $immediates,
        }))
    };
}

pub(crate) fn function_op(code: OpCode, func: FunctionId, maps: &IdsToIndices) -> Written
    ensures { as_seen result ≡ one (number_of (indices maps.now) 0) code Functions func }
{
    let func = number!(maps.get_func_index(func), Function);
    operator!(code, Immediates::Function(func))
}

pub(crate) fn global_op(code: OpCode, global: GlobalId, maps: &IdsToIndices) -> Written
    ensures { as_seen result ≡ one (number_of (indices maps.now) 0) code Globals global }
{
    let global = number!(maps.get_global_index(global), Global);
    operator!(code, Immediates::Global(global))
}

pub(crate) fn local_op(
    code: OpCode,
    local: LocalId,
    function: FunctionId,
    maps: &IdsToIndices,
) -> Written
    ensures { as_seen result ≡ one (number_of (indices maps.now) function) code Locals local }
{
    let local = number!(maps.get_local_index(function, local), Local);
    operator!(code, Immediates::Local(local))
}

pub(crate) fn type_number_op(code: OpCode, ty: TypeId, count: u32, maps: &IdsToIndices) -> Written
    ensures { as_seen result ≡ counted (number_of (indices maps.now) 0) code Types ty count }
{
    let ty = number!(maps.get_type_index(ty), Type);
    operator!(code, Immediates::TypeNumber(ty, count))
}

pub(crate) fn heap_op(code: OpCode, ty: HeapType, maps: &IdsToIndices) -> Written
    ensures { as_seen result ≡ heap (number_of (indices maps.now) 0) code ty }
{
    let ty = got!(write_heap(ty, maps));
    operator!(code, Immediates::Heap(ty))
}

/// With the number of one name, if it has one.
pub(crate) fn one_op(code: OpCode, target: Target, number: Option<u32>) -> Written
    ensures { as_seen result ≡ with_found code (space target) number }
{
    match number {
        Some(number) => op(code, with_one(target, number)),
        None => Err(PairError::Unknown(space_of(target))),
    }
}

/// With the numbers of two names, if they have some.
pub(crate) fn two_op(code: OpCode, pair: Pair, first: Option<u32>, second: Option<u32>) -> Written
    ensures { as_seen result ≡ with_both code (space (first_of pair)) first (space (second_of pair)) second }
{
    let Some(first) = first else {
        return Err(PairError::Unknown(space_of(first_of(pair))));
    };
    match second {
        Some(second) => op(code, with_two(pair, first, second)),
        None => Err(PairError::Unknown(space_of(second_of(pair)))),
    }
}

// The logarithm of an alignment, which is to be a power of two: the count of its trailing zeros, at most 31.
fn log_of(align: u32) -> u32
    ensures { result ≡ log_of align }
{
    let zeros = align.trailing_zeros();
    if zeros <= 31 { zeros } else { 31 }
}

pub(crate) fn access_op(code: OpCode, memory: MemoryId, arg: MemArg, maps: &IdsToIndices) -> Written
    ensures { as_seen result ≡ access (number_of (indices maps.now) 0) code memory arg None }
{
    let memory = number!(maps.get_memory_index(memory), Memory);
    operator!(
        code,
        Immediates::Access(MemoryAccess {
            align: log_of(arg.align),
            memory,
            offset: arg.offset,
        })
    )
}

pub(crate) fn lane_access_op(
    code: OpCode,
    memory: MemoryId,
    arg: MemArg,
    lane: Option<u8>,
    maps: &IdsToIndices,
) -> Written
    ensures { as_seen result ≡ access (number_of (indices maps.now) 0) code memory arg lane }
{
    let Some(lane) = lane else {
        return access_op(code, memory, arg, maps);
    };
    let memory = number!(maps.get_memory_index(memory), Memory);
    let access = MemoryAccess {
        align: log_of(arg.align),
        memory,
        offset: arg.offset,
    };
    operator!(code, Immediates::AccessLane(access, lane))
}
