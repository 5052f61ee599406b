//! Instructions of a code and of immediates without names, and those of many codes that name an id.
ghost use Rattle.std.specs.Prelude.{◌≡◌, [], ◌∷◌, None, option_map};
ghost use Rattle.walrus_codes.specs.walrus_instr.declared.instr.Instr.TheVariants as instrs;
ghost use Rattle.walrus_codes.specs.walrus_instr.declared.instr.Value.TheVariants as constants;
ghost use Rattle.walrus_codes.specs.Ternary.{ternary_at};
ghost use Rattle.walrus_operators.specs.wasm_operators.Items.{DataSegments, ElementSegments, Tables, Types};
ghost use Rattle.walrus_pairing.specs.Read as read;
ghost use Rattle.walrus_pairing.specs.Spaces.{first_of, second_of, space};

use crate::code_tables::{
    Numeric, binary_of, cmpxchg_of, load_of, numeric_of, rmw_of, simd_of, store_of, unary_of,
};
use crate::error::PairError;
use crate::spaces::{Pair, Target, id};
use walrus_arena::{DataId, ElementId, MemoryId, TableId, TypeId};
use walrus_forms::{HeapType, RefType};
use walrus_instr::{Bits128, Instr, MemArg, Value};
use walrus_operators::immediate_forms::MemoryAccess;
use walrus_operators::operator_table::OpCode;
use walrus_operators::the_reader::{Ieee32, Ieee64};

#[inline(always)]
fn bare_instr(code: OpCode) -> Option<Instr>
    ensures { result ≡ read.bare_at code }
{
    match code.prefix {
        0 => match code.number {
            0x00 => Some(Instr::Unreachable),
            0x0a => Some(Instr::ThrowRef),
            0x0f => Some(Instr::Return),
            0x1a => Some(Instr::Drop),
            0x1b => Some(Instr::Select { ty: None }),
            0xd1 => Some(Instr::RefIsNull),
            0xd3 => Some(Instr::RefEq),
            0xd4 => Some(Instr::RefAsNonNull),
            _ => None,
        },
        0xfb => match code.number {
            15 => Some(Instr::ArrayLen),
            26 => Some(Instr::AnyConvertExtern),
            27 => Some(Instr::ExternConvertAny),
            28 => Some(Instr::RefI31),
            29 => Some(Instr::I31GetS),
            30 => Some(Instr::I31GetU),
            _ => None,
        },
        0xfc => match code.number {
            19 => Some(Instr::I64Add128),
            20 => Some(Instr::I64Sub128),
            _ => None,
        },
        0xfd => match code.number {
            14 => Some(Instr::I8x16Swizzle),
            82 => Some(Instr::V128Bitselect),
            _ => None,
        },
        _ => None,
    }
}

// Of a numeric operator, and the lane behind it, if there is one.
#[inline(always)]
fn numeric_instr(code: OpCode, lane: Option<u8>) -> Option<Instr>
    ensures { result ≡ read.numeric_at code lane }
{
    if let Some(op) = unary_of(code, lane) {
        return Some(Instr::Unop { op });
    }
    let Some(op) = binary_of(code, lane) else {
        return None;
    };
    Some(Instr::Binop { op })
}

// Of a numeric operator without a lane: one look-up, whatever the count of its operands.
#[inline(always)]
fn operator_instr(code: OpCode) -> Option<Instr>
    ensures { result ≡ read.first (read.numeric_at code None) (option_map instrs.TernOp (ternary_at code)) }
{
    match numeric_of(code) {
        Numeric::Unary(op) => Some(Instr::Unop { op }),
        Numeric::Binary(op) => Some(Instr::Binop { op }),
        Numeric::Ternary(op) => Some(Instr::TernOp { op }),
        Numeric::Nothing => None,
    }
}

// Without immediates.
#[inline(always)]
pub(crate) fn no_immediates_instr(code: OpCode) -> Option<Instr>
    ensures { result ≡ read.no_immediates_at code }
{
    if let Some(instr) = bare_instr(code) {
        return Some(instr);
    }
    operator_instr(code)
}

// Of a byte: a lane, or the byte 00 of a fence.
pub(crate) fn byte_instr(code: OpCode, byte: u8) -> Option<Instr>
    ensures { result ≡ read.byte_at code byte }
{
    if code.prefix == 0xfe && code.number == 3 && byte == 0 {
        return Some(Instr::AtomicFence);
    }
    numeric_instr(code, Some(byte))
}

pub(crate) fn run_instr(code: OpCode, bytes: [u8; 16]) -> Option<Instr>
    ensures { result ≡ read.run_at code bytes }
{
    if code.prefix != 0xfd {
        return None;
    }
    match code.number {
        12 => Some(Instr::Const {
            value: Value::V128(Bits128::new(u128::from_le_bytes(bytes))),
        }),
        13 => Some(Instr::I8x16Shuffle { indices: bytes }),
        _ => None,
    }
}

#[inline(always)]
pub(crate) fn i32_instr(code: OpCode, n: i32) -> Option<Instr>
    ensures { result ≡ read.of_bytes (read.at 0x41 (instrs.Const (constants.I32 n)) ∷ []) code }
{
    if code.prefix != 0 || code.number != 0x41 {
        return None;
    }
    Some(Instr::Const {
        value: Value::I32(n),
    })
}

#[inline(always)]
pub(crate) fn i64_instr(code: OpCode, n: i64) -> Option<Instr>
    ensures { result ≡ read.of_bytes (read.at 0x42 (instrs.Const (constants.I64 n)) ∷ []) code }
{
    if code.prefix != 0 || code.number != 0x42 {
        return None;
    }
    Some(Instr::Const {
        value: Value::I64(n),
    })
}

pub(crate) fn f32_instr(code: OpCode, bits: Ieee32) -> Option<Instr>
    ensures { result ≡ read.bits_at code 4 bits.0 }
{
    if code.prefix != 0 || code.number != 0x43 {
        return None;
    }
    Some(Instr::Const {
        value: Value::F32(bits.bits()),
    })
}

#[inline(always)]
pub(crate) fn f64_instr(code: OpCode, bits: Ieee64) -> Option<Instr>
    ensures { result ≡ read.bits_at code 8 bits.0 }
{
    if code.prefix != 0 || code.number != 0x44 {
        return None;
    }
    Some(Instr::Const {
        value: Value::F64(bits.bits()),
    })
}

fn type_instr(code: OpCode, ty: TypeId) -> Option<Instr>
    ensures { result ≡ read.type_at code ty }
{
    match code.prefix {
        0 => match code.number {
            0x14 => Some(Instr::CallRef { ty }),
            0x15 => Some(Instr::ReturnCallRef { ty }),
            _ => None,
        },
        0xfb => match code.number {
            0 => Some(Instr::StructNew { ty }),
            1 => Some(Instr::StructNewDefault { ty }),
            6 => Some(Instr::ArrayNew { ty }),
            7 => Some(Instr::ArrayNewDefault { ty }),
            11 => Some(Instr::ArrayGet { ty }),
            12 => Some(Instr::ArrayGetS { ty }),
            13 => Some(Instr::ArrayGetU { ty }),
            14 => Some(Instr::ArraySet { ty }),
            16 => Some(Instr::ArrayFill { ty }),
            _ => None,
        },
        _ => None,
    }
}

fn table_instr(code: OpCode, table: TableId) -> Option<Instr>
    ensures { result ≡ read.table_at code «table» }
{
    match code.prefix {
        0 => match code.number {
            0x25 => Some(Instr::TableGet { table }),
            0x26 => Some(Instr::TableSet { table }),
            _ => None,
        },
        0xfc => match code.number {
            15 => Some(Instr::TableGrow { table }),
            16 => Some(Instr::TableSize { table }),
            17 => Some(Instr::TableFill { table }),
            _ => None,
        },
        _ => None,
    }
}

pub(crate) fn type_number_instr(code: OpCode, ty: TypeId, n: u32) -> Option<Instr>
    ensures { result ≡ read.counted_at code ty n }
{
    if code.prefix != 0xfb {
        return None;
    }
    match code.number {
        2 => Some(Instr::StructGet { ty, field: n }),
        3 => Some(Instr::StructGetS { ty, field: n }),
        4 => Some(Instr::StructGetU { ty, field: n }),
        5 => Some(Instr::StructSet { ty, field: n }),
        8 => Some(Instr::ArrayNewFixed { ty, size: n }),
        _ => None,
    }
}

fn memory_instr(code: OpCode, memory: MemoryId) -> Option<Instr>
    ensures { result ≡ read.memory_at code «memory» }
{
    match code.prefix {
        0 => match code.number {
            0x3f => Some(Instr::MemorySize { memory }),
            0x40 => Some(Instr::MemoryGrow { memory }),
            _ => None,
        },
        0xfc => match code.number {
            11 => Some(Instr::MemoryFill { memory }),
            _ => None,
        },
        _ => None,
    }
}

/// Of what has this number.
pub(crate) fn name_instr(code: OpCode, target: Target, n: u32) -> Option<Instr>
    ensures { result ≡ read.name_at code (space target) n }
{
    match target {
        Target::Type => type_instr(code, id(n)),
        Target::Table => table_instr(code, id(n)),
        Target::Memory => memory_instr(code, id(n)),
        Target::Tag => {
            if code.prefix != 0 || code.number != 0x08 {
                return None;
            }
            Some(Instr::Throw { tag: id(n) })
        }
        Target::Element => {
            if code.prefix != 0xfc || code.number != 13 {
                return None;
            }
            Some(Instr::ElemDrop { elem: id(n) })
        }
        Target::Data => {
            if code.prefix != 0xfc || code.number != 9 {
                return None;
            }
            Some(Instr::DataDrop { data: id(n) })
        }
    }
}

/// Of the two that have these numbers.
pub(crate) fn pair_instr(code: OpCode, pair: Pair, m: u32, n: u32) -> Option<Instr>
    ensures { result ≡ read.names_at code (space (first_of pair)) m (space (second_of pair)) n }
{
    match pair {
        Pair::TypeTable => call_instr(code, id(m), id(n)),
        Pair::DataMemory => {
            if code.prefix != 0xfc || code.number != 8 {
                return None;
            }
            Some(Instr::MemoryInit {
                memory: id(n),
                data: id(m),
            })
        }
        Pair::MemoryMemory => {
            if code.prefix != 0xfc || code.number != 10 {
                return None;
            }
            Some(Instr::MemoryCopy {
                src: id(n),
                dst: id(m),
            })
        }
        Pair::ElementTable => {
            if code.prefix != 0xfc || code.number != 12 {
                return None;
            }
            Some(Instr::TableInit {
                table: id(n),
                elem: id(m),
            })
        }
        Pair::TableTable => {
            if code.prefix != 0xfc || code.number != 14 {
                return None;
            }
            Some(Instr::TableCopy {
                src: id(n),
                dst: id(m),
            })
        }
        Pair::TypeData => array_data_instr(code, id(m), id(n)),
        Pair::TypeElement => array_element_instr(code, id(m), id(n)),
        Pair::TypeType => {
            if code.prefix != 0xfb || code.number != 17 {
                return None;
            }
            Some(Instr::ArrayCopy {
                src: id(n),
                dst: id(m),
            })
        }
    }
}

fn call_instr(code: OpCode, ty: TypeId, table: TableId) -> Option<Instr>
    ensures { result ≡ read.names_at code Types ty Tables «table» }
{
    if code.prefix != 0 {
        return None;
    }
    match code.number {
        0x11 => Some(Instr::CallIndirect { ty, table }),
        0x13 => Some(Instr::ReturnCallIndirect { ty, table }),
        _ => None,
    }
}

fn array_data_instr(code: OpCode, ty: TypeId, data: DataId) -> Option<Instr>
    ensures { result ≡ read.names_at code Types ty DataSegments «data» }
{
    if code.prefix != 0xfb {
        return None;
    }
    match code.number {
        9 => Some(Instr::ArrayNewData { ty, data }),
        18 => Some(Instr::ArrayInitData { ty, data }),
        _ => None,
    }
}

fn array_element_instr(code: OpCode, ty: TypeId, elem: ElementId) -> Option<Instr>
    ensures { result ≡ read.names_at code Types ty ElementSegments elem }
{
    if code.prefix != 0xfb {
        return None;
    }
    match code.number {
        10 => Some(Instr::ArrayNewElem { ty, elem }),
        19 => Some(Instr::ArrayInitElem { ty, elem }),
        _ => None,
    }
}

fn to(nullable: bool, heap_type: HeapType) -> RefType
    ensures { result ≡ read.to nullable heap_type }
{
    RefType {
        nullable,
        heap_type,
    }
}

pub(crate) fn heap_instr(code: OpCode, heap: HeapType) -> Option<Instr>
    ensures { result ≡ read.heap_at code heap }
{
    match code.prefix {
        0 => match code.number {
            0xd0 => Some(Instr::RefNull { ty: to(true, heap) }),
            _ => None,
        },
        0xfb => match code.number {
            20 => Some(Instr::RefTest {
                ty: to(false, heap),
            }),
            21 => Some(Instr::RefTest { ty: to(true, heap) }),
            22 => Some(Instr::RefCast {
                ty: to(false, heap),
            }),
            23 => Some(Instr::RefCast { ty: to(true, heap) }),
            _ => None,
        },
        _ => None,
    }
}

// Alignment and offset of an access.
#[inline(always)]
pub(crate) fn arg_of(access: MemoryAccess) -> Result<MemArg, PairError>
    ensures { result ≡ read.arg_of «access» }
{
    if access.align >= 32 {
        return Err(PairError::Alignment);
    }
    Ok(MemArg {
        align: 1 << access.align,
        offset: access.offset,
    })
}

fn wait_instr(code: OpCode, memory: MemoryId, arg: MemArg) -> Option<Instr>
    ensures { result ≡ read.wait_at code memory arg }
{
    if code.prefix != 0xfe {
        return None;
    }
    match code.number {
        0 => Some(Instr::AtomicNotify { memory, arg }),
        1 => Some(Instr::AtomicWait {
            memory,
            arg,
            sixty_four: false,
        }),
        2 => Some(Instr::AtomicWait {
            memory,
            arg,
            sixty_four: true,
        }),
        _ => None,
    }
}

// Of an access without a lane.
#[inline(always)]
pub(crate) fn access_instr(code: OpCode, memory: MemoryId, arg: MemArg) -> Option<Instr>
    ensures { result ≡ read.access_at code memory arg }
{
    if let Some(kind) = load_of(code) {
        return Some(Instr::Load { memory, kind, arg });
    }
    if let Some(kind) = store_of(code) {
        return Some(Instr::Store { memory, kind, arg });
    }
    if let Some(kind) = simd_of(code, None) {
        return Some(Instr::LoadSimd { memory, kind, arg });
    }
    if let Some((op, width)) = rmw_of(code) {
        return Some(Instr::AtomicRmw {
            memory,
            op,
            width,
            arg,
        });
    }
    if let Some(width) = cmpxchg_of(code) {
        return Some(Instr::Cmpxchg { memory, width, arg });
    }
    wait_instr(code, memory, arg)
}
