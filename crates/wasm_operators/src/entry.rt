//! What the table of operators says of a code.

ghost use Rattle.std.specs.Prelude.{◌≡◌};
ghost use Rattle.wasm_operators.specs.Operators.{is_on};

use wasm_composite_types::reader::WasmFeatures;

/// What has to be on for an operator.
#[derive(Clone, Copy, PartialEq, Eq)]
pub enum Gate {
    /// Nothing.
    Always,
    /// The legacy exception operators.
    LegacyExceptions,
    /// Wide arithmetic.
    WideArithmetic,
}

impl Gate {
    /// Whether the features let the operator pass.
    #[inline]
    pub fn is_on(self, features: WasmFeatures) -> bool
        ensures { result ≡ is_on features self }
    {
        match self {
            Gate::Always => true,
            Gate::LegacyExceptions => features.legacy_exceptions(),
            Gate::WideArithmetic => features.wide_arithmetic(),
        }
    }
}

/// Which immediates follow an operator's code.
#[derive(Clone, Copy, PartialEq, Eq)]
pub enum Kind {
    /// None.
    Bare,
    /// A block type.
    Block,
    /// A block type and handlers.
    TryTable,
    /// A tag.
    Tag,
    /// A label.
    Label,
    /// Labels, and the one for other numbers.
    BrTable,
    /// A function.
    Function,
    /// A type and a table.
    TypeTable,
    /// A type.
    Type,
    /// Value types.
    Select,
    /// A local.
    Local,
    /// A global.
    Global,
    /// A table.
    Table,
    /// An access to memory.
    Access,
    /// A memory.
    Memory,
    /// An s32.
    I32,
    /// An s64.
    I64,
    /// The bits of a float of 32 bits.
    F32,
    /// The bits of a float of 64 bits.
    F64,
    /// A heap type.
    Heap,
    /// A data segment and a memory.
    DataMemory,
    /// A data segment.
    Data,
    /// Two memories.
    MemoryMemory,
    /// An element segment and a table.
    ElementTable,
    /// An element segment.
    Element,
    /// Two tables.
    TableTable,
    /// A type and a number.
    TypeNumber,
    /// A type and a data segment.
    TypeData,
    /// A type and an element segment.
    TypeElement,
    /// Two types.
    TypeType,
    /// A byte below 4, a label and two heap types.
    Cast,
    /// Sixteen bytes.
    Vector,
    /// A byte.
    Lane,
    /// An access to memory and a byte.
    AccessLane,
    /// The byte 00.
    Zero,
}

/// What an operator does to a run.
#[derive(Clone, Copy, PartialEq, Eq)]
pub enum Flow {
    /// The run goes on: `nop`.
    Passes,
    /// It goes on or traps.
    Goes,
    /// It traps.
    Traps,
    /// It opens a block.
    OpensBlock,
    /// It opens a loop.
    OpensLoop,
    /// It opens the first part of an `if`, or goes to the other part.
    OpensIf,
    /// It opens a legacy `try`.
    OpensTry,
    /// It opens a `try_table`.
    OpensTryTable,
    /// It marks the other part of an `if`.
    Else,
    /// It marks a handler of a `try`.
    Catch,
    /// It marks the handler of a `try` for all exceptions.
    CatchAll,
    /// It ends a `try`, whose exceptions it hands to another block.
    Delegate,
    /// It ends a block, or the body.
    End,
    /// It branches.
    Branches,
    /// It branches or goes on.
    Chooses,
    /// It branches to one of many labels.
    Selects,
    /// It returns.
    Returns,
    /// It calls a function.
    Calls,
    /// It calls a function that it finds at run time.
    CallsIndirectly,
    /// It returns by a call.
    TailCalls,
    /// It returns by a call of a function that it finds at run time.
    TailCallsIndirectly,
    /// It throws.
    Throws,
    /// It throws or traps.
    ThrowsOrTraps,
}

/// What the table says of a code.
#[derive(Clone, Copy, PartialEq, Eq)]
pub struct Entry {
    /// What has to be on.
    pub gate: Gate,
    /// Which immediates follow.
    pub kind: Kind,
    /// What the operator does to a run.
    pub flow: Flow,
}
