//! Immediates are read, by their kind.

ghost use Rattle.std.specs.Prelude.{◌≡◌, IfOk};
ghost use Rattle.wasm_operators.specs.wasm_reader.Reading.{Reads};
ghost use Rattle.wasm_operators.specs.wasm_reader.Items.{ReadsBy, ReadsUnlessMemory};
ghost use Rattle.wasm_operators.specs.Readings.{items_at};
ghost use Rattle.wasm_operators.specs.Kinds.{forms, takes_memory};
ghost use Rattle.walrus_operators.specs.Immediates.{IsOfOne, IsOfTwo, IsRare, items_of, kind_is, one_item, two_items};

use crate::immediates::Immediates;
use std::alloc::Global;
use wasm_operators::reader::{BinaryReader, FromReader, Result};
use wasm_operators::ref_types::{HeapType, ValType};
use wasm_operators::{BlockType, Clause, Kind, read_access, read_below, read_zero};

// No list is longer than a u32 counts.
const MOST: usize = 4294967295;

#[tactic(auto, unfolding(wasm_operators::specs::Readings::items_at, wasm_operators::specs::Readings::item_at))]
fn read_try_table(alloc: Global, reader: &mut BinaryReader<'_>) -> Result<Immediates>
    ensures items { ReadsUnlessMemory (items_at reader.old.window.features (forms Kind.TryTable)) items_of reader.old reader.new result }
    ensures kind { IfOk result (λ x. kind_is x ≡ Kind.TryTable) }
{
    let ty = got!(BlockType::from_reader(alloc, reader));
    let clauses = got!(reader.read_vec::<Clause>(alloc, MOST));
    Ok(Immediates::TryTable(ty, clauses))
}

#[tactic(auto, unfolding(wasm_operators::specs::Readings::items_at, wasm_operators::specs::Readings::item_at))]
fn read_branch_table(alloc: Global, reader: &mut BinaryReader<'_>) -> Result<Immediates>
    ensures items { ReadsUnlessMemory (items_at reader.old.window.features (forms Kind.BrTable)) items_of reader.old reader.new result }
    ensures kind { IfOk result (λ x. kind_is x ≡ Kind.BrTable) }
{
    let labels = got!(reader.read_vec::<u32>(alloc, MOST));
    let otherwise = got!(reader.read_var_u32());
    Ok(Immediates::BrTable(labels, otherwise))
}

#[tactic(auto, unfolding(wasm_operators::specs::Readings::items_at, wasm_operators::specs::Readings::item_at))]
fn read_select(alloc: Global, reader: &mut BinaryReader<'_>) -> Result<Immediates>
    ensures items { ReadsUnlessMemory (items_at reader.old.window.features (forms Kind.Select)) items_of reader.old reader.new result }
    ensures kind { IfOk result (λ x. kind_is x ≡ Kind.Select) }
{
    let types = got!(reader.read_vec::<ValType>(alloc, MOST));
    Ok(Immediates::Select(types))
}

#[tactic(auto, unfolding(wasm_operators::specs::Readings::items_at, wasm_operators::specs::Readings::item_at))]
fn read_cast(alloc: Global, reader: &mut BinaryReader<'_>) -> Result<Immediates>
    ensures items { Reads (items_at reader.old.window.features (forms Kind.Cast)) items_of reader.old reader.new result }
    ensures kind { IfOk result (λ x. kind_is x ≡ Kind.Cast) }
{
    let flags = got!(read_below(reader, 4));
    let label = got!(reader.read_var_u32());
    let from = got!(HeapType::from_reader(alloc, reader));
    let to = got!(HeapType::from_reader(alloc, reader));
    Ok(Immediates::Cast(flags, label, from, to))
}

#[tactic(auto, unfolding(wasm_operators::specs::Readings::items_at, wasm_operators::specs::Readings::item_at))]
fn read_vector(reader: &mut BinaryReader<'_>) -> Result<Immediates>
    ensures items { Reads (items_at reader.old.window.features (forms Kind.Vector)) items_of reader.old reader.new result }
    ensures kind { IfOk result (λ x. kind_is x ≡ Kind.Vector) }
{
    let bytes = got!(reader.read_bytes(16));
    let mut vector = [0; 16];
    vector.copy_from_slice(bytes);
    Ok(Immediates::Vector(vector))
}

#[tactic(auto, unfolding(wasm_operators::specs::Readings::items_at, wasm_operators::specs::Readings::item_at))]
fn read_access_lane(reader: &mut BinaryReader<'_>) -> Result<Immediates>
    ensures items { Reads (items_at reader.old.window.features (forms Kind.AccessLane)) items_of reader.old reader.new result }
    ensures kind { IfOk result (λ x. kind_is x ≡ Kind.AccessLane) }
{
    let access = got!(read_access(reader));
    let lane = got!(reader.read_u8());
    Ok(Immediates::AccessLane(access, lane))
}

// Immediates of one index.
#[inline(always)]
fn of_one(kind: Kind, n: u32) -> Immediates
    requires { IsOfOne kind }
    ensures items { items_of result ≡ one_item kind n }
    ensures kind { kind_is result ≡ kind }
{
    match kind {
        Kind::Tag => Immediates::Tag(n),
        Kind::Type => Immediates::Type(n),
        Kind::Table => Immediates::Table(n),
        Kind::Memory => Immediates::Memory(n),
        Kind::Data => Immediates::Data(n),
        Kind::Element => Immediates::Element(n),
        Kind::Label => Immediates::Label(n),
        Kind::Function => Immediates::Function(n),
        Kind::Local => Immediates::Local(n),
        Kind::Global => Immediates::Global(n),
        _ => unreachable!(),
    }
}

// Immediates of two numbers.
fn of_two(kind: Kind, m: u32, n: u32) -> Immediates
    requires { IsOfTwo kind }
    ensures items { items_of result ≡ two_items kind m n }
    ensures kind { kind_is result ≡ kind }
{
    match kind {
        Kind::TypeTable => Immediates::TypeTable(m, n),
        Kind::DataMemory => Immediates::DataMemory(m, n),
        Kind::MemoryMemory => Immediates::MemoryMemory(m, n),
        Kind::ElementTable => Immediates::ElementTable(m, n),
        Kind::TableTable => Immediates::TableTable(m, n),
        Kind::TypeNumber => Immediates::TypeNumber(m, n),
        Kind::TypeData => Immediates::TypeData(m, n),
        Kind::TypeElement => Immediates::TypeElement(m, n),
        Kind::TypeType => Immediates::TypeType(m, n),
        _ => unreachable!(),
    }
}

// The immediates of a rarer kind. It isn't inlined: what it keeps on the stack is then no part of each read.
#[inline(never)]
#[tactic(auto, unfolding(wasm_operators::specs::Readings::items_at, wasm_operators::specs::Readings::item_at))]
fn read_rare(kind: Kind, alloc: Global, reader: &mut BinaryReader<'_>) -> Result<Immediates>
    requires { IsRare kind }
    ensures items { ReadsBy (takes_memory kind) (items_at reader.old.window.features (forms kind)) items_of reader.old reader.new result }
    ensures kind { IfOk result (λ x. kind_is x ≡ kind) }
{
    match kind {
        Kind::TryTable => read_try_table(alloc, reader),
        Kind::BrTable => read_branch_table(alloc, reader),
        Kind::Select => read_select(alloc, reader),
        Kind::Tag | Kind::Type | Kind::Table | Kind::Memory | Kind::Data | Kind::Element => {
            let n = got!(reader.read_var_u32());
            Ok(of_one(kind, n))
        }
        Kind::TypeTable
        | Kind::DataMemory
        | Kind::MemoryMemory
        | Kind::ElementTable
        | Kind::TableTable
        | Kind::TypeNumber
        | Kind::TypeData
        | Kind::TypeElement
        | Kind::TypeType => {
            let first = got!(reader.read_var_u32());
            let second = got!(reader.read_var_u32());
            Ok(of_two(kind, first, second))
        }
        Kind::F32 => Ok(Immediates::F32(got!(reader.read_f32()))),
        Kind::Heap => Ok(Immediates::Heap(got!(HeapType::from_reader(alloc, reader)))),
        Kind::Cast => read_cast(alloc, reader),
        Kind::Vector => read_vector(reader),
        Kind::Lane => Ok(Immediates::Lane(got!(reader.read_u8()))),
        Kind::AccessLane => read_access_lane(reader),
        Kind::Zero => {
            got!(read_zero(reader));
            Ok(Immediates::Zero)
        }
        Kind::Bare
        | Kind::Block
        | Kind::Label
        | Kind::Function
        | Kind::Local
        | Kind::Global
        | Kind::Access
        | Kind::I32
        | Kind::I64
        | Kind::F64 => unreachable!(),
    }
}

// The immediates of a kind.
#[inline(always)]
#[tactic(auto, unfolding(wasm_operators::specs::Readings::items_at, wasm_operators::specs::Readings::item_at))]
pub(crate) fn read_immediates(
    kind: Kind,
    alloc: Global,
    reader: &mut BinaryReader<'_>,
) -> Result<Immediates>
    ensures items { ReadsBy (takes_memory kind) (items_at reader.old.window.features (forms kind)) items_of reader.old reader.new result }
    ensures kind { IfOk result (λ x. kind_is x ≡ kind) }
{
    match kind {
        Kind::Bare => Ok(Immediates::Bare),
        Kind::Block => Ok(Immediates::Block(got!(BlockType::from_reader(alloc, reader)))),
        Kind::Label | Kind::Function | Kind::Local | Kind::Global => {
            let n = got!(reader.read_var_u32());
            Ok(of_one(kind, n))
        }
        Kind::Access => Ok(Immediates::Access(got!(read_access(reader)))),
        Kind::I32 => Ok(Immediates::I32(got!(reader.read_var_i32()))),
        Kind::I64 => Ok(Immediates::I64(got!(reader.read_var_i64()))),
        Kind::F64 => Ok(Immediates::F64(got!(reader.read_f64()))),
        Kind::TryTable
        | Kind::Tag
        | Kind::BrTable
        | Kind::TypeTable
        | Kind::Type
        | Kind::Select
        | Kind::Table
        | Kind::Memory
        | Kind::F32
        | Kind::Heap
        | Kind::DataMemory
        | Kind::Data
        | Kind::MemoryMemory
        | Kind::ElementTable
        | Kind::Element
        | Kind::TableTable
        | Kind::TypeNumber
        | Kind::TypeData
        | Kind::TypeElement
        | Kind::TypeType
        | Kind::Cast
        | Kind::Vector
        | Kind::Lane
        | Kind::AccessLane
        | Kind::Zero => read_rare(kind, alloc, reader),
    }
}
