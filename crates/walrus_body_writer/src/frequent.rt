//! Frequent instructions are written straight behind the bytes, with no operator between.

ghost use Rattle.std.specs.Prelude.{◌≡◌, ℕ, [], ◌∷◌, List, None, slice_get};
ghost use Rattle.wasm_operators.specs.Items.{Space as Of, Access, Bits, Block, Byte, Functions, Globals, Labels, Locals, Names, Number, S32, S64};
ghost use Rattle.walrus_operators.specs.Appended.{Appends};
ghost use Rattle.walrus_operators.specs.wasm_operators.Bytes.{code_bytes, item_bytes, operator_bytes};
ghost use Rattle.walrus_pairing.specs.walrus_codes.Runs as codes;
ghost use Rattle.walrus_pairing.specs.Looks.{Look, word};
ghost use Rattle.walrus_pairing.specs.Write.{access, access_of, constant, lane_items, log_of, one, op, seen_of};
ghost use Rattle.walrus_body_writer.specs.Appended.{IsAppended, named};
ghost use Rattle.walrus_body_text.specs.Doing.{label_by, piece_of};
ghost use Rattle.walrus_body_writer.specs.Numbers.{look_of};
ghost use Rattle.walrus_body_writer.specs.Refusals.{IsLarge, value_in, value_of};
ghost use Rattle.walrus_body_writer.specs.Spelled.{opening, type_in, written, written_instr};

use crate::numbers::Numbers;
use crate::operators::{block_type, type_of};
use std::alloc::AllocError;
use walrus_arena::{FunctionId, GlobalId, InstrSeqId, LocalId, MemoryId};
use walrus_body_text::tree::instr::{Instr, InstrSeq};
use walrus_body_text::{Closer, Depths};
use walrus_index_maps::Space;
use walrus_operators::{
    write_access, write_bits32, write_bits64, write_block_type, write_byte, write_code,
    write_index, write_signed,
};
use walrus_pairing::PairError;
use walrus_pairing::access_codes::instr::{MemArg, Value};
use walrus_pairing::access_codes::operator_codes::{
    byte, code_of_binary, code_of_unary, lane_of_binary, lane_of_unary,
};
use walrus_pairing::access_codes::{code_of_load, code_of_store};
use wasm_operators::{BlockType, MemoryAccess, OpCode};

// What puts one operator behind the bytes, or a part of it where memory is refused.
type Done = Result<(), AllocError>;

// A byte, where there is no room for it. It isn't inlined, as mostly there is some.
#[inline(never)]
fn grow_by(bytes: &mut Vec<u8>, byte: u8) -> Done
    ensures { Appends (byte ∷ []) bytes.old.items bytes.new.items result }
{
    write_byte(bytes, byte)
}

// A byte.
#[inline(always)]
fn put_byte(bytes: &mut Vec<u8>, byte: u8) -> Done
    ensures { Appends (byte ∷ []) bytes.old.items bytes.new.items result }
{
    if bytes.len() < bytes.capacity() {
        bytes.push_reserved(byte);
        return Ok(());
    }
    grow_by(bytes, byte)
}

// A code behind a prefix.
#[inline(never)]
fn put_long(bytes: &mut Vec<u8>, code: OpCode) -> Done
    ensures { Appends (code_bytes code) bytes.old.items bytes.new.items result }
{
    write_code(bytes, code)
}

// The code of an operator, which mostly is a byte.
#[inline(always)]
fn put_code(bytes: &mut Vec<u8>, code: OpCode) -> Done
    ensures { Appends (code_bytes code) bytes.old.items bytes.new.items result }
{
    if code.prefix == 0 {
        return put_byte(bytes, (code.number % 0x100) as u8);
    }
    put_long(bytes, code)
}

// The type of a block, which mostly has none.
#[inline(always)]
fn put_type(bytes: &mut Vec<u8>, ty: BlockType) -> Done
    ensures { Appends (item_bytes (Block ty)) bytes.old.items bytes.new.items result }
{
    match ty {
        BlockType::Empty => put_byte(bytes, 0x40),
        _ => write_block_type(bytes, ty),
    }
}

// An operator with one number.
#[inline(always)]
#[tactic(auto, using(crate::proofs::Straight::one_item))]
fn append_number(bytes: &mut Vec<u8>, code: OpCode, n: u32) -> Done
    ensures { Appends (operator_bytes (seen_of code (Number n ∷ []))) bytes.old.items bytes.new.items result }
{
    write_code(bytes, code)?;
    write_index(bytes, n)
}

#[inline(always)]
#[tactic(auto, using(crate::proofs::Straight::one_item))]
fn append_byte(bytes: &mut Vec<u8>, code: OpCode, lane: u8) -> Done
    ensures { Appends (operator_bytes (seen_of code (Byte lane ∷ []))) bytes.old.items bytes.new.items result }
{
    write_code(bytes, code)?;
    write_byte(bytes, lane)
}

#[inline(always)]
#[tactic(auto, using(crate::proofs::Straight::no_item))]
fn append_bare(bytes: &mut Vec<u8>, code: OpCode) -> Done
    ensures { Appends (operator_bytes (seen_of code [])) bytes.old.items bytes.new.items result }
{
    put_code(bytes, code)
}

#[inline(always)]
#[tactic(auto, using(crate::proofs::Straight::one_item))]
fn append_place(bytes: &mut Vec<u8>, code: OpCode, access: MemoryAccess) -> Done
    ensures { Appends (operator_bytes (seen_of code (Access access ∷ []))) bytes.old.items bytes.new.items result }
{
    put_code(bytes, code)?;
    write_access(bytes, access)
}

#[inline(always)]
#[tactic(auto, using(crate::proofs::Straight::one_item))]
fn append_i32(bytes: &mut Vec<u8>, n: i32) -> Done
    ensures { Appends (operator_bytes (seen_of (codes.byte 0x41) (S32 n ∷ []))) bytes.old.items bytes.new.items result }
{
    put_code(bytes, byte(0x41))?;
    write_signed(bytes, i64::from(n))
}

#[inline(always)]
#[tactic(auto, using(crate::proofs::Straight::one_item))]
fn append_i64(bytes: &mut Vec<u8>, n: i64) -> Done
    ensures { Appends (operator_bytes (seen_of (codes.byte 0x42) (S64 n ∷ []))) bytes.old.items bytes.new.items result }
{
    put_code(bytes, byte(0x42))?;
    write_signed(bytes, n)
}

#[inline(always)]
#[tactic(auto, using(crate::proofs::Straight::one_item))]
fn append_f32(bytes: &mut Vec<u8>, bits: u32) -> Done
    ensures { Appends (operator_bytes (seen_of (codes.byte 0x43) (Bits 4 bits ∷ []))) bytes.old.items bytes.new.items result }
{
    put_code(bytes, byte(0x43))?;
    write_bits32(bytes, bits)
}

#[inline(always)]
#[tactic(auto, using(crate::proofs::Straight::one_item))]
fn append_f64(bytes: &mut Vec<u8>, bits: u64) -> Done
    ensures { Appends (operator_bytes (seen_of (codes.byte 0x44) (Bits 8 bits ∷ []))) bytes.old.items bytes.new.items result }
{
    put_code(bytes, byte(0x44))?;
    write_bits64(bytes, bits)
}

#[inline(always)]
#[tactic(auto, using(crate::proofs::Straight::one_item))]
fn append_block(bytes: &mut Vec<u8>, code: OpCode, ty: BlockType) -> Done
    ensures { Appends (operator_bytes (seen_of code (Block ty ∷ []))) bytes.old.items bytes.new.items result }
{
    put_code(bytes, code)?;
    put_type(bytes, ty)
}

// An operator with a name, if that has a number.
#[inline(always)]
#[tactic(auto, using(crate::proofs::Straight::unnamed, crate::proofs::Straight::is_named, crate::proofs::Straight::no_memory, crate::proofs::Straight::is_access))]
fn append_named(
    bytes: &mut Vec<u8>,
    code: OpCode,
    n: Option<u32>,
    space: Space,
) -> Result<bool, PairError>
    ensures { (of : Of) → space ≡ word of → IsAppended ⊥ (named code of n) bytes.old bytes.new result }
{
    match n {
        Some(n) => {
            append_number(bytes, code, n)?;
            Ok(true)
        }
        None => Err(PairError::Unknown(space)),
    }
}

#[inline(always)]
fn append_local(
    numbers: &Numbers<'_>,
    bytes: &mut Vec<u8>,
    code: OpCode,
    local: LocalId,
) -> Result<bool, PairError>
    ensures { IsAppended ⊥ (one (look_of numbers.now) code Locals local) bytes.old bytes.new result }
{
    let number = numbers.maps.get_local_index(numbers.function, local);
    append_named(bytes, code, number, Space::Local)
}

#[inline(always)]
fn append_function(
    numbers: &Numbers<'_>,
    bytes: &mut Vec<u8>,
    code: OpCode,
    func: FunctionId,
) -> Result<bool, PairError>
    ensures { IsAppended ⊥ (one (look_of numbers.now) code Functions func) bytes.old bytes.new result }
{
    let number = numbers.maps.get_func_index(func);
    append_named(bytes, code, number, Space::Function)
}

#[inline(always)]
fn append_global(
    numbers: &Numbers<'_>,
    bytes: &mut Vec<u8>,
    code: OpCode,
    global: GlobalId,
) -> Result<bool, PairError>
    ensures { IsAppended ⊥ (one (look_of numbers.now) code Globals global) bytes.old bytes.new result }
{
    let number = numbers.maps.get_global_index(global);
    append_named(bytes, code, number, Space::Global)
}

// A branch.
#[inline(always)]
fn append_label(bytes: &mut Vec<u8>, code: OpCode, label: u32) -> Result<bool, PairError>
    ensures { IsAppended ⊥ (op code (Names Labels label ∷ [])) bytes.old bytes.new result }
{
    append_number(bytes, code, label)?;
    Ok(true)
}

// An operator with a lane, or none.
#[inline(always)]
fn append_lane(bytes: &mut Vec<u8>, code: OpCode, lane: Option<u8>) -> Result<bool, PairError>
    ensures { IsAppended ⊥ (op code (lane_items lane)) bytes.old bytes.new result }
{
    match lane {
        None => {
            append_bare(bytes, code)?;
            Ok(true)
        }
        Some(lane) => {
            append_byte(bytes, code, lane)?;
            Ok(true)
        }
    }
}

// The logarithm of an alignment, which is to be a power of two: the count of its trailing zeros, at most 31.
#[inline(always)]
fn log_of(align: u32) -> u32
    ensures { result ≡ log_of align }
{
    let zeros = align.trailing_zeros();
    if zeros <= 31 { zeros } else { 31 }
}

#[inline(always)]
fn access_of(memory: u32, arg: MemArg) -> MemoryAccess
    ensures { result ≡ access_of memory arg }
{
    MemoryAccess {
        align: log_of(arg.align),
        memory,
        offset: arg.offset,
    }
}

// An access to memory, if that has a number.
#[inline(always)]
#[tactic(auto, using(crate::proofs::Straight::unnamed, crate::proofs::Straight::is_named, crate::proofs::Straight::no_memory, crate::proofs::Straight::is_access))]
fn append_access(
    numbers: &Numbers<'_>,
    bytes: &mut Vec<u8>,
    code: OpCode,
    memory: MemoryId,
    arg: MemArg,
) -> Result<bool, PairError>
    ensures { IsAppended ⊥ (access (look_of numbers.now) code memory arg None) bytes.old bytes.new result }
{
    let Some(memory) = numbers.maps.get_memory_index(memory) else {
        return Err(PairError::Unknown(Space::Memory));
    };
    append_place(bytes, code, access_of(memory, arg))?;
    Ok(true)
}

// A constant, but for those of vectors.
#[inline(always)]
fn append_constant(bytes: &mut Vec<u8>, value: Value) -> Result<bool, PairError>
    ensures { IsAppended ⊥ (constant value) bytes.old bytes.new result }
{
    match value {
        Value::I32(n) => {
            append_i32(bytes, n)?;
            Ok(true)
        }
        Value::I64(n) => {
            append_i64(bytes, n)?;
            Ok(true)
        }
        Value::F32(bits) => {
            append_f32(bytes, bits)?;
            Ok(true)
        }
        Value::F64(bits) => {
            append_f64(bytes, bits)?;
            Ok(true)
        }
        Value::V128(_) => Ok(false),
    }
}

/// Puts an instruction that holds no sequence behind the bytes, if it is one of the frequent ones.
///
/// # Errors
///
/// What it names has no number; or want of memory. What was there stands at the front.
#[inline(always)]
pub(crate) fn append_frequent(
    numbers: &Numbers<'_>,
    depths: &Depths,
    instr: &Instr,
    bytes: &mut Vec<u8>,
) -> Result<bool, PairError>
    ensures { (b : List InstrSeq) → IsAppended (IsLarge (look_of numbers.now) (value_in b instr.now)) (written_instr (look_of numbers.now) b (label_by depths.now.depths.items depths.now.height) instr.now) bytes.old bytes.new result }
{
    match instr {
        Instr::LocalGet { local } => append_local(numbers, bytes, byte(0x20), *local),
        Instr::LocalSet { local } => append_local(numbers, bytes, byte(0x21), *local),
        Instr::LocalTee { local } => append_local(numbers, bytes, byte(0x22), *local),
        Instr::Const { value } => append_constant(bytes, *value),
        Instr::Unop { op } => append_lane(bytes, code_of_unary(*op), lane_of_unary(*op)),
        Instr::Binop { op } => append_lane(bytes, code_of_binary(*op), lane_of_binary(*op)),
        Instr::Load { memory, kind, arg } => {
            append_access(numbers, bytes, code_of_load(*kind), *memory, *arg)
        }
        Instr::Store { memory, kind, arg } => {
            append_access(numbers, bytes, code_of_store(*kind), *memory, *arg)
        }
        Instr::Call { func } => append_function(numbers, bytes, byte(0x10), *func),
        Instr::GlobalGet { global } => append_global(numbers, bytes, byte(0x23), *global),
        Instr::GlobalSet { global } => append_global(numbers, bytes, byte(0x24), *global),
        Instr::Br { block } => append_label(bytes, byte(0x0c), depths.label(*block)),
        Instr::BrIf { block } => append_label(bytes, byte(0x0d), depths.label(*block)),
        _ => Ok(false),
    }
}

// The beginning of a block, of the type of this sequence.
#[inline(always)]
#[tactic(auto, using(crate::proofs::Straight::opened, crate::proofs::Straight::unopened))]
fn append_opening(
    numbers: &Numbers<'_>,
    seqs: &[InstrSeq],
    bytes: &mut Vec<u8>,
    code: u32,
    id: InstrSeqId,
) -> Result<bool, PairError>
    ensures { IsAppended (IsLarge (look_of numbers.now) (value_of (type_in (slice_get seqs.now id)))) (opening (look_of numbers.now) seqs.now code id) bytes.old bytes.new result }
{
    match block_type(numbers, &type_of(seqs, id)) {
        Ok(ty) => {
            append_block(bytes, byte(code), ty)?;
            Ok(true)
        }
        Err(error) => Err(error),
    }
}

/// The same of an instruction that may hold sequences.
///
/// # Errors
///
/// Its type has no number, or one that is too great; or want of memory. What was there stands at the front.
#[inline(always)]
pub(crate) fn append_holder(
    numbers: &Numbers<'_>,
    seqs: &[InstrSeq],
    instr: &Instr,
    bytes: &mut Vec<u8>,
) -> Result<bool, PairError>
    ensures { (number : ℕ → ℕ) → IsAppended (IsLarge (look_of numbers.now) (value_in seqs.now instr.now)) (written_instr (look_of numbers.now) seqs.now number instr.now) bytes.old bytes.new result }
{
    match instr {
        Instr::Block { seq } => append_opening(numbers, seqs, bytes, 0x02, *seq),
        Instr::Loop { seq } => append_opening(numbers, seqs, bytes, 0x03, *seq),
        Instr::IfElse { consequent, .. } => append_opening(numbers, seqs, bytes, 0x04, *consequent),
        _ => Ok(false),
    }
}

// An operator without immediates.
#[inline(always)]
fn append_plain(bytes: &mut Vec<u8>, code: OpCode) -> Result<bool, PairError>
    ensures { IsAppended ⊥ (op code []) bytes.old bytes.new result }
{
    append_bare(bytes, code)?;
    Ok(true)
}

/// The same of what stands behind a sequence.
///
/// # Errors
///
/// Want of memory. What was there stands at the front.
#[inline(always)]
pub(crate) fn append_end(closer: Closer, bytes: &mut Vec<u8>) -> Result<bool, PairError>
    ensures { (look : Look) (b : List InstrSeq) → IsAppended ⊥ (written look b (piece_of closer)) bytes.old bytes.new result }
{
    match closer {
        Closer::Else => append_plain(bytes, byte(0x05)),
        Closer::End => append_plain(bytes, byte(0x0b)),
        _ => Ok(false),
    }
}
