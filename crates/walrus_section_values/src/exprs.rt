//! Constant expressions (Core Specification, valid expressions: constant expressions; binary format: expressions).

ghost use Rattle.std.specs.Prelude.{◌≡◌, ◌<◌, true, false, length, map, option_map, IfOk, OnOk};
ghost use Rattle.wasm_reader.specs.Cursor.{rest};
ghost use Rattle.wasm_reader.specs.Reading.{plain};
ghost use Rattle.wasm_grammar.specs.wasm_formats.Stops.{ConstExpr, Index, OffsetType};
ghost use Rattle.wasm_grammar.specs.wasm_formats.Until.{until};
ghost use Rattle.wasm_grammar.specs.TypeWords.{heap_of};
ghost use Rattle.std.specs.Prelude.{nat_lt, slice_index_or, None};
ghost use Rattle.walrus_forms.specs.Records.{value_of};
ghost use Rattle.wasm_operators.specs.declared.entry.Kind.TheVariants as Kind;
ghost use Rattle.wasm_grammar.specs.wasm_formats.Joined.{only};
ghost use Rattle.wasm_grammar.specs.Values.{must};
ghost use Rattle.wasm_grammar.specs.Exprs.{code, constant, constant_byte, constant_fb, expr, end_apart, gives_address, global_is, names_address, offset_test, heap_test, is_address, is_constant, items, items_test, offset, operator, read_wants, takes_some};
ghost use Rattle.walrus_operators.specs.Immediates.{items_of};
ghost use Rattle.walrus_operators.specs.Operators.{seen};
ghost use Rattle.walrus_section_reader.specs.Faults.{trouble_of};
ghost use Rattle.walrus_section_reader.specs.Parses.{Parses, ParsesExactly};
ghost use Rattle.walrus_section_values.specs.Globals.{known_of, expr_of};
ghost use Rattle.walrus_section_values.specs.Constants.{IsConstantKind};
ghost use Rattle.wasm_operators.specs.Readings.{items_at};
ghost use Rattle.wasm_operators.specs.Kinds.{forms};
ghost use Rattle.wasm_reader.specs.Reading.{Reads};

use crate::globals::Global;
use crate::types::{heap_record, is_named_below};
use crate::values::take_byte;
use std::alloc::Global as Alloc;
use walrus_forms::ValRecord;
use walrus_operators::{Immediates, Operator};
use walrus_section_reader::{Fault, FaultKind, Form, Result, Space};
use wasm_operators::{Kind, OpCode};
use wasm_reader::{BinaryReader, FromReader};
use wasm_ref_types::HeapType;

/// What a constant expression may name: so many types and functions, and the globals before it.
#[derive(Clone, Copy)]
pub struct Known<'k> {
    /// How many types there are.
    pub types: usize,
    /// How many functions.
    pub functions: usize,
    /// The globals.
    pub globals: &'k [Global],
}

// Whether an operator of this byte may stand there.
fn is_constant_byte(number: u32) -> bool
    ensures { result ≡ constant_byte number }
{
    (0x41 <= number && number <= 0x44)
        || number == 0x23
        || number == 0xd0
        || number == 0xd2
        || (0x6a <= number && number <= 0x6c)
        || (0x7c <= number && number <= 0x7e)
}

// Whether an operator of this number behind fb may.
fn is_constant_fb(number: u32) -> bool
    ensures { result ≡ constant_fb number }
{
    number <= 1 || (6 <= number && number <= 8) || (26 <= number && number <= 28)
}

// Whether an operator of this code may.
fn is_constant(code: OpCode) -> bool
    ensures { result ≡ is_constant code }
{
    (code.prefix == 0 && is_constant_byte(code.number))
        || (code.prefix == 0xfb && is_constant_fb(code.number))
        || (code.prefix == 0xfd && code.number == 12)
}

// The code of an operator that may stand there, which takes a byte at least. Others are `ConstExpr` at their first byte.
#[tactic(auto, using(crate::specs::Untils::code_shorter))]
fn read_code(alloc: Alloc, reader: &mut BinaryReader<'_>) -> Result<OpCode>
    ensures code { ParsesExactly (only code (λ c. must (is_constant c) ConstExpr)).parse plain reader.old reader.new result }
    ensures constant { IfOk result (λ c. is_constant c ≡ true) }
    ensures takes { OnOk result (length (rest reader.new) < length (rest reader.old)) }
{
    let offset = reader.original_position();
    let code = OpCode::from_reader(alloc, reader)?;
    if !is_constant(code) {
        return Err(Fault::new(FaultKind::ConstExpr, offset));
    }
    Ok(code)
}

// The immediates of a kind that constant expressions have.
#[tactic(auto, unfolding(wasm_operators::specs::Readings::items_at, wasm_operators::specs::Readings::item_at))]
fn read_kind(
    kind: Kind,
    alloc: Alloc,
    reader: &mut BinaryReader<'_>,
) -> wasm_reader::Result<Immediates>
    requires { IsConstantKind kind }
    ensures { Reads (items_at reader.old.window.features (forms kind)) items_of reader.old reader.new result }
{
    match kind {
        Kind::Bare => Ok(Immediates::Bare),
        Kind::I32 => Ok(Immediates::I32(reader.read_var_i32()?)),
        Kind::I64 => Ok(Immediates::I64(reader.read_var_i64()?)),
        Kind::F32 => Ok(Immediates::F32(reader.read_f32()?)),
        Kind::F64 => Ok(Immediates::F64(reader.read_f64()?)),
        Kind::Vector => read_vector(reader),
        Kind::Global => Ok(Immediates::Global(reader.read_var_u32()?)),
        Kind::Function => Ok(Immediates::Function(reader.read_var_u32()?)),
        Kind::Heap => Ok(Immediates::Heap(HeapType::from_reader(alloc, reader)?)),
        Kind::Type => Ok(Immediates::Type(reader.read_var_u32()?)),
        Kind::TypeNumber => {
            let first = reader.read_var_u32()?;
            let second = reader.read_var_u32()?;
            Ok(Immediates::TypeNumber(first, second))
        }
        Kind::Block
        | Kind::TryTable
        | Kind::Tag
        | Kind::Label
        | Kind::BrTable
        | Kind::TypeTable
        | Kind::Select
        | Kind::Local
        | Kind::Table
        | Kind::Access
        | Kind::Memory
        | Kind::DataMemory
        | Kind::Data
        | Kind::MemoryMemory
        | Kind::ElementTable
        | Kind::Element
        | Kind::TableTable
        | Kind::TypeData
        | Kind::TypeElement
        | Kind::TypeType
        | Kind::Cast
        | Kind::Lane
        | Kind::AccessLane
        | Kind::Zero => unreachable!(),
    }
}

#[tactic(auto, unfolding(wasm_operators::specs::Readings::items_at, wasm_operators::specs::Readings::item_at))]
fn read_vector(reader: &mut BinaryReader<'_>) -> wasm_reader::Result<Immediates>
    ensures { Reads (items_at reader.old.window.features (forms Kind.Vector)) items_of reader.old reader.new result }
{
    let bytes = reader.read_bytes(16)?;
    Ok(Immediates::Vector([
        bytes[0], bytes[1], bytes[2], bytes[3], bytes[4], bytes[5], bytes[6], bytes[7], bytes[8],
        bytes[9], bytes[10], bytes[11], bytes[12], bytes[13], bytes[14], bytes[15],
    ]))
}

// The immediates of an operator of a constant expression.
#[tactic(auto, using(crate::specs::Constants::lacks_none, crate::specs::Constants::has_constant))]
fn read_immediates(code: OpCode, alloc: Alloc, reader: &mut BinaryReader<'_>) -> Result<Immediates>
    requires { is_constant code ≡ true }
    ensures { ParsesExactly (items reader.old.window.features code).parse items_of reader.old reader.new result }
{
    let Some(kind) = code.kind(reader.features()) else {
        unreachable!();
    };
    Ok(read_kind(kind, alloc, reader)?)
}

// An operator that may stand there.
fn read_constant(alloc: Alloc, reader: &mut BinaryReader<'_>) -> Result<Operator>
    ensures operator { ParsesExactly (constant reader.old.window.features).parse seen reader.old reader.new result }
    ensures takes { OnOk result (length (rest reader.new) < length (rest reader.old)) }
{
    let code = read_code(alloc, reader)?;
    let immediates = read_immediates(code, alloc, reader)?;
    Ok(Operator { code, immediates })
}

// What a heap type is refused for.
fn heap_fault(known: &Known<'_>, ty: HeapType) -> Option<FaultKind>
    ensures { option_map trouble_of result ≡ heap_test (known_of known.now) (heap_of ty) }
{
    let Some(record) = heap_record(ty) else {
        return Some(FaultKind::Unsupported(Form::SharedType));
    };
    if !is_named_below(known.types, record.type_index()) {
        return Some(FaultKind::Index(Space::Type));
    }
    None
}

// What an index that isn't below a count is refused for.
fn index_fault(space: Space, index: u32, count: usize) -> Option<FaultKind>
    ensures { option_map trouble_of result ≡ must (nat_lt index count) (Index space) }
{
    if (index as usize) < count {
        None
    } else {
        Some(FaultKind::Index(space))
    }
}

// What immediates are refused for: the first name of what isn't there.
fn items_fault(known: &Known<'_>, immediates: &Immediates) -> Option<FaultKind>
    ensures { option_map trouble_of result ≡ items_test (known_of known.now) (items_of immediates.now) }
{
    match immediates {
        Immediates::Function(n) => index_fault(Space::Function, *n, known.functions),
        Immediates::Global(n) => index_fault(Space::Global, *n, known.globals.len()),
        Immediates::Type(n)
        | Immediates::TypeTable(n, _)
        | Immediates::TypeNumber(n, _)
        | Immediates::TypeData(n, _)
        | Immediates::TypeElement(n, _) => index_fault(Space::Type, *n, known.types),
        Immediates::TypeType(m, n) => match index_fault(Space::Type, *m, known.types) {
            Some(fault) => Some(fault),
            None => index_fault(Space::Type, *n, known.types),
        },
        Immediates::Heap(ty) => heap_fault(known, *ty),
        Immediates::Cast(_, _, from, to) => match heap_fault(known, *from) {
            Some(fault) => Some(fault),
            None => heap_fault(known, *to),
        },
        Immediates::Bare
        | Immediates::Block(_)
        | Immediates::TryTable(_, _)
        | Immediates::Tag(_)
        | Immediates::Label(_)
        | Immediates::BrTable(_, _)
        | Immediates::Select(_)
        | Immediates::Local(_)
        | Immediates::Table(_)
        | Immediates::Access(_)
        | Immediates::Memory(_)
        | Immediates::I32(_)
        | Immediates::I64(_)
        | Immediates::F32(_)
        | Immediates::F64(_)
        | Immediates::DataMemory(_, _)
        | Immediates::Data(_)
        | Immediates::MemoryMemory(_, _)
        | Immediates::ElementTable(_, _)
        | Immediates::Element(_)
        | Immediates::TableTable(_, _)
        | Immediates::Vector(_)
        | Immediates::Lane(_)
        | Immediates::AccessLane(_, _)
        | Immediates::Zero => None,
    }
}

// An operator that may stand there, whose names are known. What isn't there is refused at the operator's first byte.
fn read_operator(alloc: Alloc, known: &Known<'_>, reader: &mut BinaryReader<'_>) -> Result<Operator>
    ensures operator { ParsesExactly (operator reader.old.window.features (known_of known.now)).parse seen reader.old reader.new result }
    ensures takes { OnOk result (length (rest reader.new) < length (rest reader.old)) }
{
    let offset = reader.original_position();
    let op = read_constant(alloc, reader)?;
    if let Some(kind) = items_fault(known, &op.immediates) {
        return Err(Fault::new(kind, offset));
    }
    Ok(op)
}

// Operators up to the `end`.
fn read_operators(
    alloc: Alloc,
    known: &Known<'_>,
    reader: &mut BinaryReader<'_>,
) -> Result<Vec<Operator>>
    ensures { Parses (until 0x0b (operator reader.old.window.features (known_of known.now)) (end_apart reader.old.window.features) (takes_some reader.old.window.features) (read_wants reader.old.window.features (known_of known.now))).parse expr_of reader.old reader.new result }
{
    let mut operators = Vec::new(alloc);
    loop {
        if take_byte(0x0b, reader) {
            return Ok(operators);
        }
        operators.push(read_operator(alloc, known, reader)?)?;
    }
}

/// One or more constant operators, and the `end`. None at all is `ConstExpr` at the `end`.
#[tactic(auto, using(crate::specs::Globals::some_operators_are, crate::specs::Globals::no_operators_are))]
pub fn read_expr(
    alloc: Alloc,
    known: &Known<'_>,
    reader: &mut BinaryReader<'_>,
) -> Result<Vec<Operator>>
    ensures { Parses (expr reader.old.window.features (known_of known.now)).parse expr_of reader.old reader.new result }
{
    let offset = reader.original_position();
    let operators = read_operators(alloc, known, reader)?;
    if operators.is_empty() {
        return Err(Fault::new(FaultKind::ConstExpr, offset));
    }
    Ok(operators)
}

// Whether it is the type of addresses: i64 for wide ones, or else i32.
fn is_address(wide: bool, ty: ValRecord) -> bool
    ensures { result ≡ is_address wide (value_of ty) }
{
    if wide {
        matches!(ty, ValRecord::I64)
    } else {
        matches!(ty, ValRecord::I32)
    }
}

// Whether the global of this number holds addresses.
#[tactic(auto, using(crate::specs::Globals::global_there, crate::specs::Globals::global_missing))]
fn global_is(wide: bool, known: &Known<'_>, index: u32) -> bool
    ensures { result ≡ global_is wide (slice_index_or (known_of known.now).globals index None) }
{
    let index = index as usize;
    if index >= known.globals.len() {
        return false;
    }
    is_address(wide, known.globals[index].ty)
}

// Whether the operator gives an address.
fn gives_address(wide: bool, known: &Known<'_>, op: &Operator) -> bool
    ensures { result ≡ gives_address wide (known_of known.now) (seen op.now) }
{
    let constant = if wide { 0x42 } else { 0x41 };
    (op.code.prefix == 0 && op.code.number == constant)
        || (op.code.prefix == 0
            && op.code.number == 0x23
            && names_address(wide, known, &op.immediates))
}

// Whether the immediates are a global that holds addresses.
fn names_address(wide: bool, known: &Known<'_>, immediates: &Immediates) -> bool
    ensures { result ≡ names_address wide (known_of known.now) (items_of immediates.now) }
{
    match immediates {
        Immediates::Global(n) => global_is(wide, known, *n),
        Immediates::Bare
        | Immediates::Block(_)
        | Immediates::TryTable(_, _)
        | Immediates::Tag(_)
        | Immediates::Label(_)
        | Immediates::BrTable(_, _)
        | Immediates::Function(_)
        | Immediates::TypeTable(_, _)
        | Immediates::Type(_)
        | Immediates::Select(_)
        | Immediates::Local(_)
        | Immediates::Table(_)
        | Immediates::Access(_)
        | Immediates::Memory(_)
        | Immediates::I32(_)
        | Immediates::I64(_)
        | Immediates::F32(_)
        | Immediates::F64(_)
        | Immediates::Heap(_)
        | Immediates::DataMemory(_, _)
        | Immediates::Data(_)
        | Immediates::MemoryMemory(_, _)
        | Immediates::ElementTable(_, _)
        | Immediates::Element(_)
        | Immediates::TableTable(_, _)
        | Immediates::TypeNumber(_, _)
        | Immediates::TypeData(_, _)
        | Immediates::TypeElement(_, _)
        | Immediates::TypeType(_, _)
        | Immediates::Cast(_, _, _, _)
        | Immediates::Vector(_)
        | Immediates::Lane(_)
        | Immediates::AccessLane(_, _)
        | Immediates::Zero => false,
    }
}

// Whether one operator alone gives an address; longer expressions pass.
#[tactic(auto, using(crate::specs::Globals::one_offset, crate::specs::Globals::other_offset))]
fn is_offset(wide: bool, known: &Known<'_>, operators: &[Operator]) -> bool
    ensures { offset_test wide (known_of known.now) (map seen operators.now) ≡ must result OffsetType }
{
    if operators.len() != 1 {
        return true;
    }
    gives_address(wide, known, &operators[0])
}

/// An offset in a table or memory, of 64-bit addresses where they are wide. One operator of another type is `OffsetType` at its
/// first byte.
pub fn read_offset(
    alloc: Alloc,
    wide: bool,
    known: &Known<'_>,
    reader: &mut BinaryReader<'_>,
) -> Result<Vec<Operator>>
    ensures { Parses (offset reader.old.window.features wide (known_of known.now)).parse expr_of reader.old reader.new result }
{
    let offset = reader.original_position();
    let operators = read_expr(alloc, known, reader)?;
    if !is_offset(wide, known, operators.as_slice()) {
        return Err(Fault::new(FaultKind::OffsetType, offset));
    }
    Ok(operators)
}
