//! The operators of instructions, family by family.
ghost use Rattle.std.specs.Prelude.{◌≡◌, false, Ok, Err, None, Some};
ghost use Rattle.walrus_index_maps.specs.Views.{indices};
ghost use Rattle.walrus_pairing.specs.Looks.{number_of};
ghost use Rattle.walrus_pairing.specs.Seen.{as_seen, has_reserved_byte, is_fence};
ghost use Rattle.walrus_pairing.specs.Spaces.{named_code};
ghost use Rattle.walrus_pairing.specs.Write.{bare_code, test_code, cast_code, constant, numeric, variable, memory_op, object_op, lane_items};

use crate::code_tables::{
    code_of_binary, code_of_simd, code_of_store, code_of_ternary, code_of_unary, lane_of_binary,
    lane_of_simd, lane_of_unary, object,
};
use crate::spaces::{Pair, Target};
use crate::written::{
    Written, access_op, function_op, global_op, heap_op, lane_access_op, local_op, one_op, op,
    two_op, type_number_op,
};
use walrus_arena::FunctionId;
use walrus_codes::{atomic, code_of_cmpxchg, code_of_load, code_of_rmw};
use walrus_index_maps::IdsToIndices;
use walrus_instr::{Instr, Value};
use walrus_operators::Immediates;
use walrus_operators::operator_table::OpCode;
use walrus_operators::the_reader::{Ieee32, Ieee64};

// The code of an instruction without immediates.
pub(crate) fn bare_code_of(instr: &Instr) -> Option<OpCode>
    ensures { result ≡ bare_code instr.now }
{
    match instr {
        Instr::Unreachable => Some(code!(0, 0x00)),
        Instr::ThrowRef => Some(code!(0, 0x0a)),
        Instr::Return => Some(code!(0, 0x0f)),
        Instr::Drop => Some(code!(0, 0x1a)),
        Instr::Select { ty: None } => Some(code!(0, 0x1b)),
        Instr::RefIsNull => Some(code!(0, 0xd1)),
        Instr::RefEq => Some(code!(0, 0xd3)),
        Instr::RefAsNonNull => Some(code!(0, 0xd4)),
        Instr::ArrayLen => Some(code!(0xfb, 15)),
        Instr::AnyConvertExtern => Some(code!(0xfb, 26)),
        Instr::ExternConvertAny => Some(code!(0xfb, 27)),
        Instr::RefI31 => Some(code!(0xfb, 28)),
        Instr::I31GetS => Some(code!(0xfb, 29)),
        Instr::I31GetU => Some(code!(0xfb, 30)),
        Instr::I64Add128 => Some(code!(0xfc, 19)),
        Instr::I64Sub128 => Some(code!(0xfc, 20)),
        Instr::I8x16Swizzle => Some(code!(0xfd, 14)),
        Instr::V128Bitselect => Some(code!(0xfd, 82)),
        Instr::TernOp { op } => Some(code_of_ternary(*op)),
        _ => None,
    }
}

pub(crate) fn write_constant(value: Value) -> Written
    ensures { as_seen result ≡ constant value }
{
    match value {
        Value::I32(n) => op(code!(0, 0x41), Immediates::I32(n)),
        Value::I64(n) => op(code!(0, 0x42), Immediates::I64(n)),
        Value::F32(bits) => op(code!(0, 0x43), Immediates::F32(Ieee32(bits))),
        Value::F64(bits) => op(code!(0, 0x44), Immediates::F64(Ieee64(bits))),
        Value::V128(bits) => op(
            code!(0xfd, 12),
            Immediates::Vector(bits.get().to_le_bytes()),
        ),
    }
}

// With a lane, where there is one.
pub(crate) fn lane_op(code: OpCode, lane: Option<u8>) -> Written
    ensures value { as_seen result ≡ Ok (Some (record { code = code; items = lane_items lane })) }
    ensures reserved { has_reserved_byte result ≡ false }
{
    match lane {
        None => op(code, Immediates::Bare),
        Some(lane) => op(code, Immediates::Lane(lane)),
    }
}

pub(crate) fn write_numeric(instr: &Instr) -> Written
    ensures value { as_seen result ≡ numeric instr.now }
    ensures reserved { has_reserved_byte result ≡ is_fence instr.now }
{
    match instr {
        Instr::Const { value } => write_constant(*value),
        Instr::Unop { op } => lane_op(code_of_unary(*op), lane_of_unary(*op)),
        Instr::Binop { op } => lane_op(code_of_binary(*op), lane_of_binary(*op)),
        Instr::I8x16Shuffle { indices } => op(code!(0xfd, 13), Immediates::Vector(*indices)),
        Instr::AtomicFence => op(code!(0xfe, 3), Immediates::Zero),
        _ => Ok(None),
    }
}

// The code of an instruction that names something, where others name as much: one function has them all, so that each family has an arm for
// all that name the same.
fn named_code(instr: &Instr) -> OpCode
    ensures { result ≡ named_code instr.now }
{
    match instr {
        Instr::Call { .. } => code!(0, 0x10),
        Instr::CallIndirect { .. } => code!(0, 0x11),
        Instr::ReturnCall { .. } => code!(0, 0x12),
        Instr::ReturnCallIndirect { .. } => code!(0, 0x13),
        Instr::CallRef { .. } => code!(0, 0x14),
        Instr::ReturnCallRef { .. } => code!(0, 0x15),
        Instr::LocalGet { .. } => code!(0, 0x20),
        Instr::LocalSet { .. } => code!(0, 0x21),
        Instr::LocalTee { .. } => code!(0, 0x22),
        Instr::GlobalGet { .. } => code!(0, 0x23),
        Instr::GlobalSet { .. } => code!(0, 0x24),
        Instr::TableGet { .. } => code!(0, 0x25),
        Instr::TableSet { .. } => code!(0, 0x26),
        Instr::RefFunc { .. } => code!(0, 0xd2),
        Instr::TableGrow { .. } => code!(0xfc, 15),
        Instr::TableSize { .. } => code!(0xfc, 16),
        Instr::TableFill { .. } => code!(0xfc, 17),
        Instr::MemorySize { .. } => code!(0, 0x3f),
        Instr::MemoryGrow { .. } => code!(0, 0x40),
        Instr::MemoryFill { .. } => code!(0xfc, 11),
        Instr::Load { kind, .. } => code_of_load(*kind),
        Instr::Store { kind, .. } => code_of_store(*kind),
        Instr::AtomicNotify { .. } => code!(0xfe, 0),
        Instr::AtomicWait { sixty_four, .. } => atomic(if *sixty_four { 2 } else { 1 }),
        Instr::AtomicRmw { op, width, .. } => code_of_rmw(*op, *width),
        Instr::Cmpxchg { width, .. } => code_of_cmpxchg(*width),
        Instr::StructNew { .. } => code!(0xfb, 0),
        Instr::StructNewDefault { .. } => code!(0xfb, 1),
        Instr::StructGet { .. } => code!(0xfb, 2),
        Instr::StructGetS { .. } => code!(0xfb, 3),
        Instr::StructGetU { .. } => code!(0xfb, 4),
        Instr::StructSet { .. } => code!(0xfb, 5),
        Instr::ArrayNew { .. } => code!(0xfb, 6),
        Instr::ArrayNewDefault { .. } => code!(0xfb, 7),
        Instr::ArrayNewFixed { .. } => code!(0xfb, 8),
        Instr::ArrayNewData { .. } => code!(0xfb, 9),
        Instr::ArrayNewElem { .. } => code!(0xfb, 10),
        Instr::ArrayGet { .. } => code!(0xfb, 11),
        Instr::ArrayGetS { .. } => code!(0xfb, 12),
        Instr::ArrayGetU { .. } => code!(0xfb, 13),
        Instr::ArraySet { .. } => code!(0xfb, 14),
        Instr::ArrayFill { .. } => code!(0xfb, 16),
        Instr::ArrayInitData { .. } => code!(0xfb, 18),
        Instr::ArrayInitElem { .. } => code!(0xfb, 19),
        _ => code!(0, 0),
    }
}

pub(crate) fn write_variable(instr: &Instr, function: FunctionId, maps: &IdsToIndices) -> Written
    ensures { as_seen result ≡ variable (number_of (indices maps.now) function) instr.now }
{
    match instr {
        Instr::Throw { tag } => one_op(code!(0, 0x08), Target::Tag, maps.get_tag_index(*tag)),
        Instr::Call { func } | Instr::ReturnCall { func } | Instr::RefFunc { func } => {
            function_op(named_code(instr), *func, maps)
        }
        Instr::CallIndirect { ty, table } | Instr::ReturnCallIndirect { ty, table } => two_op(
            named_code(instr),
            Pair::TypeTable,
            maps.get_type_index(*ty),
            maps.get_table_index(*table),
        ),
        Instr::CallRef { ty } | Instr::ReturnCallRef { ty } => {
            one_op(named_code(instr), Target::Type, maps.get_type_index(*ty))
        }
        Instr::LocalGet { local } | Instr::LocalSet { local } | Instr::LocalTee { local } => {
            local_op(named_code(instr), *local, function, maps)
        }
        Instr::GlobalGet { global } | Instr::GlobalSet { global } => {
            global_op(named_code(instr), *global, maps)
        }
        Instr::TableGet { table }
        | Instr::TableSet { table }
        | Instr::TableGrow { table }
        | Instr::TableSize { table }
        | Instr::TableFill { table } => one_op(
            named_code(instr),
            Target::Table,
            maps.get_table_index(*table),
        ),
        Instr::TableInit { table, elem } => two_op(
            code!(0xfc, 12),
            Pair::ElementTable,
            maps.get_element_index(*elem),
            maps.get_table_index(*table),
        ),
        Instr::ElemDrop { elem } => one_op(
            code!(0xfc, 13),
            Target::Element,
            maps.get_element_index(*elem),
        ),
        Instr::TableCopy { src, dst } => two_op(
            code!(0xfc, 14),
            Pair::TableTable,
            maps.get_table_index(*dst),
            maps.get_table_index(*src),
        ),
        _ => Ok(None),
    }
}

pub(crate) fn write_memory(instr: &Instr, maps: &IdsToIndices) -> Written
    ensures { as_seen result ≡ memory_op (number_of (indices maps.now) 0) instr.now }
{
    match instr {
        Instr::Load { memory, arg, .. }
        | Instr::Store { memory, arg, .. }
        | Instr::AtomicNotify { memory, arg }
        | Instr::AtomicWait { memory, arg, .. }
        | Instr::AtomicRmw { memory, arg, .. }
        | Instr::Cmpxchg { memory, arg, .. } => access_op(named_code(instr), *memory, *arg, maps),
        Instr::LoadSimd { memory, kind, arg } => lane_access_op(
            code_of_simd(*kind),
            *memory,
            *arg,
            lane_of_simd(*kind),
            maps,
        ),
        Instr::MemorySize { memory }
        | Instr::MemoryGrow { memory }
        | Instr::MemoryFill { memory } => one_op(
            named_code(instr),
            Target::Memory,
            maps.get_memory_index(*memory),
        ),
        Instr::MemoryInit { memory, data } => two_op(
            code!(0xfc, 8),
            Pair::DataMemory,
            maps.get_data_index(*data),
            maps.get_memory_index(*memory),
        ),
        Instr::DataDrop { data } => {
            one_op(code!(0xfc, 9), Target::Data, maps.get_data_index(*data))
        }
        Instr::MemoryCopy { src, dst } => two_op(
            code!(0xfc, 10),
            Pair::MemoryMemory,
            maps.get_memory_index(*dst),
            maps.get_memory_index(*src),
        ),
        _ => Ok(None),
    }
}

// The code of a test of a reference.
fn code_of_test(nullable: bool) -> OpCode
    ensures { result ≡ test_code nullable }
{
    object(if nullable { 21 } else { 20 })
}

// The code of a cast of a reference.
fn code_of_cast(nullable: bool) -> OpCode
    ensures { result ≡ cast_code nullable }
{
    object(if nullable { 23 } else { 22 })
}

pub(crate) fn write_object(instr: &Instr, maps: &IdsToIndices) -> Written
    ensures { as_seen result ≡ object_op (number_of (indices maps.now) 0) instr.now }
{
    match instr {
        Instr::RefNull { ty } => heap_op(code!(0, 0xd0), ty.heap_type, maps),
        Instr::RefTest { ty } => heap_op(code_of_test(ty.nullable), ty.heap_type, maps),
        Instr::RefCast { ty } => heap_op(code_of_cast(ty.nullable), ty.heap_type, maps),
        Instr::StructNew { ty }
        | Instr::StructNewDefault { ty }
        | Instr::ArrayNew { ty }
        | Instr::ArrayNewDefault { ty }
        | Instr::ArrayGet { ty }
        | Instr::ArrayGetS { ty }
        | Instr::ArrayGetU { ty }
        | Instr::ArraySet { ty }
        | Instr::ArrayFill { ty } => {
            one_op(named_code(instr), Target::Type, maps.get_type_index(*ty))
        }
        Instr::StructGet { ty, field: n }
        | Instr::StructGetS { ty, field: n }
        | Instr::StructGetU { ty, field: n }
        | Instr::StructSet { ty, field: n }
        | Instr::ArrayNewFixed { ty, size: n } => {
            type_number_op(named_code(instr), *ty, *n, maps)
        }
        Instr::ArrayNewData { ty, data } | Instr::ArrayInitData { ty, data } => two_op(
            named_code(instr),
            Pair::TypeData,
            maps.get_type_index(*ty),
            maps.get_data_index(*data),
        ),
        Instr::ArrayNewElem { ty, elem } | Instr::ArrayInitElem { ty, elem } => two_op(
            named_code(instr),
            Pair::TypeElement,
            maps.get_type_index(*ty),
            maps.get_element_index(*elem),
        ),
        Instr::ArrayCopy { src, dst } => two_op(
            code!(0xfb, 17),
            Pair::TypeType,
            maps.get_type_index(*dst),
            maps.get_type_index(*src),
        ),
        _ => Ok(None),
    }
}
