//! What follows an operator's code (Core Specification, binary format: instructions).

use wasm_operators::reader::{Ieee32, Ieee64};
use wasm_operators::ref_types::{HeapType, ValType};
use wasm_operators::{BlockType, Clause, MemoryAccess};

/// The immediates of an operator, by kind. Indices are numbers in the spaces of the module, locals and labels in those of the body;
/// nothing is tested of them.
#[derive(Drop)]
pub enum Immediates {
    /// None.
    Bare,
    /// The type of a block.
    Block(BlockType),
    /// The type of a block, and handlers.
    TryTable(BlockType, Vec<Clause>),
    /// A tag.
    Tag(u32),
    /// A label.
    Label(u32),
    /// Labels, and the one for other numbers.
    BrTable(Vec<u32>, u32),
    /// A function.
    Function(u32),
    /// A type and a table.
    TypeTable(u32, u32),
    /// A type.
    Type(u32),
    /// Types of values.
    Select(Vec<ValType>),
    /// A local.
    Local(u32),
    /// A global.
    Global(u32),
    /// A table.
    Table(u32),
    /// An access to memory.
    Access(MemoryAccess),
    /// A memory.
    Memory(u32),
    /// A number of 32 bits.
    I32(i32),
    /// A number of 64 bits.
    I64(i64),
    /// The bits of a float of 32 bits.
    F32(Ieee32),
    /// The bits of a float of 64 bits.
    F64(Ieee64),
    /// A heap type.
    Heap(HeapType),
    /// A data segment and a memory.
    DataMemory(u32, u32),
    /// A data segment.
    Data(u32),
    /// Two memories.
    MemoryMemory(u32, u32),
    /// An element segment and a table.
    ElementTable(u32, u32),
    /// An element segment.
    Element(u32),
    /// Two tables.
    TableTable(u32, u32),
    /// A type and a number.
    TypeNumber(u32, u32),
    /// A type and a data segment.
    TypeData(u32, u32),
    /// A type and an element segment.
    TypeElement(u32, u32),
    /// Two types.
    TypeType(u32, u32),
    /// Flags below 4, a label, and the heap types from and to which is cast.
    Cast(u8, u32, HeapType, HeapType),
    /// Sixteen bytes.
    Vector([u8; 16]),
    /// A lane, of whose number nothing is tested.
    Lane(u8),
    /// An access to memory and a lane.
    AccessLane(MemoryAccess, u8),
    /// The byte 00.
    Zero,
}
