//! The operator of an instruction.
ghost use Rattle.std.specs.Prelude.{◌≡◌, false};
ghost use Rattle.walrus_index_maps.specs.Views.{indices};
ghost use Rattle.walrus_pairing.specs.Looks.{number_of};
ghost use Rattle.walrus_pairing.specs.Seen.{as_seen, has_reserved_byte, is_fence};
ghost use Rattle.walrus_pairing.specs.Answers.{selected, IsSelectAnswer, IsAnswer};
ghost use Rattle.walrus_pairing.specs.Write.{plain_at};

use crate::code_tables::{
    byte, code_of_binary, code_of_store, code_of_unary, lane_of_binary, lane_of_unary,
};
use crate::error::PairError;
use crate::families::{
    bare_code_of, lane_op, write_constant, write_memory, write_numeric, write_object,
    write_variable,
};
use crate::types::write_value;
use crate::written::{Written, access_op, function_op, global_op, local_op, op};
use std::alloc::Global;
use walrus_arena::FunctionId;
use walrus_codes::code_of_load;
use walrus_forms::ValType;
use walrus_index_maps::IdsToIndices;
use walrus_instr::Instr;
use walrus_operators::Immediates;

// Of an instruction without a list. It isn't inlined: what it keeps on the stack is then no part of each call.
#[inline(never)]
fn rare_operator(instr: &Instr, function: FunctionId, maps: &IdsToIndices) -> Written
    ensures value { as_seen result ≡ plain_at (number_of (indices maps.now) function) instr.now }
    ensures reserved { has_reserved_byte result ≡ is_fence instr.now }
{
    if let Some(code) = bare_code_of(instr) {
        return op(code, Immediates::Bare);
    }
    if let Some(op) = write_numeric(instr)? {
        return Ok(Some(op));
    }
    if let Some(op) = write_variable(instr, function, maps)? {
        return Ok(Some(op));
    }
    if let Some(op) = write_memory(instr, maps)? {
        return Ok(Some(op));
    }
    write_object(instr, maps)
}

// The same, the frequent instructions first.
fn plain_operator(instr: &Instr, function: FunctionId, maps: &IdsToIndices) -> Written
    ensures value { as_seen result ≡ plain_at (number_of (indices maps.now) function) instr.now }
    ensures reserved { has_reserved_byte result ≡ is_fence instr.now }
{
    match instr {
        Instr::LocalGet { local } => local_op(byte(0x20), *local, function, maps),
        Instr::LocalSet { local } => local_op(byte(0x21), *local, function, maps),
        Instr::LocalTee { local } => local_op(byte(0x22), *local, function, maps),
        Instr::Const { value } => write_constant(*value),
        Instr::Unop { op } => lane_op(code_of_unary(*op), lane_of_unary(*op)),
        Instr::Binop { op } => lane_op(code_of_binary(*op), lane_of_binary(*op)),
        Instr::Load { memory, kind, arg } => access_op(code_of_load(*kind), *memory, *arg, maps),
        Instr::Store { memory, kind, arg } => access_op(code_of_store(*kind), *memory, *arg, maps),
        Instr::Call { func } => function_op(byte(0x10), *func, maps),
        Instr::GlobalGet { global } => global_op(byte(0x23), *global, maps),
        Instr::GlobalSet { global } => global_op(byte(0x24), *global, maps),
        _ => rare_operator(instr, function, maps),
    }
}

// The type that a `select` names.
fn selected_type(instr: &Instr) -> Option<ValType>
    ensures { result ≡ selected instr.now }
{
    match instr {
        Instr::Select { ty } => *ty,
        _ => None,
    }
}

fn select_operator(alloc: Global, ty: ValType, maps: &IdsToIndices) -> Written
    ensures answer { IsSelectAnswer (indices maps.now).types.number ty result }
    ensures reserved { has_reserved_byte result ≡ false }
{
    let ty = got!(write_value(ty, maps));
    let mut types = Vec::new(alloc);
    match types.extend_from_slice(&[ty]) {
        Ok(()) => op(byte(0x1c), Immediates::Select(types)),
        Err(_) => Err(PairError::Memory),
    }
}

/// The plain operator of an instruction in the body of this function, its names by their numbers; none for an instruction that holds
/// sequences or labels, which is not paired by itself. A fence's, and no other, has a reserved byte.
///
/// # Errors
///
/// `Unknown` where a name has no number: the first in the order of the operator's immediates. `TypeIndex` and `Memory` of a
/// `select` with a type alone: where a type's number there is 2^20 or more, and for want of memory.
pub fn operator_of(
    alloc: Global,
    instr: &Instr,
    function: FunctionId,
    maps: &IdsToIndices,
) -> Written
    ensures answer { IsAnswer (number_of (indices maps.now) function) instr.now result }
    ensures reserved { has_reserved_byte result ≡ is_fence instr.now }
{
    if let Some(ty) = selected_type(instr) {
        return select_operator(alloc, ty, maps);
    }
    plain_operator(instr, function, maps)
}
