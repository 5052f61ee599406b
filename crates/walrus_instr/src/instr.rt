//! Instructions (Core Specification, instructions).
ghost use Rattle.std.specs.Prelude.{◌≡◌};
ghost use Rattle.walrus_instr.specs.Cuts.{cuts};

use crate::bits::Bits128;
use crate::memory::{AtomicOp, AtomicWidth, LoadKind, LoadSimdKind, MemArg, StoreKind};
use crate::operators::{BinaryOp, TernaryOp, UnaryOp};
use walrus_types::arena::{
    DataId, ElementId, FunctionId, GlobalId, InstrSeqId, LocalId, MemoryId, TableId, TagId, TypeId,
};
use walrus_types::{RefType, ValType};

/// A constant. Floats are their bits.
#[derive(Clone, Copy, PartialEq, Eq)]
pub enum Value {
    I32(i32),
    I64(i64),
    F32(u32),
    F64(u64),
    V128(Bits128),
}

/// The lanes that `i8x16.shuffle` picks.
pub type ShuffleIndices = [u8; 16];

/// A part of a legacy `try` after its body.
#[derive(Clone, Copy, PartialEq, Eq)]
pub enum LegacyCatch {
    /// Runs the handler where an exception of this tag was thrown.
    Catch { tag: TagId, handler: InstrSeqId },
    /// Runs the handler where any exception was thrown.
    CatchAll { handler: InstrSeqId },
    /// Hands each exception on to the frame of this label.
    Delegate { relative_depth: u32 },
}

/// A clause of `try_table`: where it branches to with which exceptions.
#[derive(Clone, Copy, PartialEq, Eq)]
pub enum TryTableCatch {
    /// With the arguments of an exception of this tag.
    Catch { tag: TagId, label: InstrSeqId },
    /// With the arguments of an exception of this tag, and a reference to it.
    CatchRef { tag: TagId, label: InstrSeqId },
    /// With any exception.
    CatchAll { label: InstrSeqId },
    /// With a reference to any exception.
    CatchAllRef { label: InstrSeqId },
}

/// An instruction. Ids of sequences are children (`seq`, `consequent`, `alternative`, handlers) or
/// labels of branches (`block`, `blocks`, `default`, `label`).
#[derive(Drop)]
pub enum Instr {
    Block {
        seq: InstrSeqId,
    },
    Loop {
        seq: InstrSeqId,
    },
    IfElse {
        consequent: InstrSeqId,
        alternative: InstrSeqId,
    },
    Try {
        seq: InstrSeqId,
        catches: Vec<LegacyCatch>,
    },
    TryTable {
        seq: InstrSeqId,
        catches: Vec<TryTableCatch>,
    },

    Unreachable,
    Br {
        block: InstrSeqId,
    },
    BrIf {
        block: InstrSeqId,
    },
    BrTable {
        default: InstrSeqId,
        blocks: Vec<InstrSeqId>,
    },
    BrOnNull {
        block: InstrSeqId,
    },
    BrOnNonNull {
        block: InstrSeqId,
    },
    BrOnCast {
        block: InstrSeqId,
        from_ty: RefType,
        to_ty: RefType,
    },
    BrOnCastFail {
        block: InstrSeqId,
        from_ty: RefType,
        to_ty: RefType,
    },
    Return,
    Throw {
        tag: TagId,
    },
    ThrowRef,
    Rethrow {
        relative_depth: u32,
    },

    Call {
        func: FunctionId,
    },
    CallIndirect {
        ty: TypeId,
        table: TableId,
    },
    CallRef {
        ty: TypeId,
    },
    ReturnCall {
        func: FunctionId,
    },
    ReturnCallIndirect {
        ty: TypeId,
        table: TableId,
    },
    ReturnCallRef {
        ty: TypeId,
    },

    Drop,
    Select {
        ty: Option<ValType>,
    },
    Const {
        value: Value,
    },
    Unop {
        op: UnaryOp,
    },
    Binop {
        op: BinaryOp,
    },
    TernOp {
        op: TernaryOp,
    },
    I64Add128,
    I64Sub128,
    V128Bitselect,
    I8x16Swizzle,
    I8x16Shuffle {
        indices: ShuffleIndices,
    },

    LocalGet {
        local: LocalId,
    },
    LocalSet {
        local: LocalId,
    },
    LocalTee {
        local: LocalId,
    },
    GlobalGet {
        global: GlobalId,
    },
    GlobalSet {
        global: GlobalId,
    },

    TableGet {
        table: TableId,
    },
    TableSet {
        table: TableId,
    },
    TableGrow {
        table: TableId,
    },
    TableSize {
        table: TableId,
    },
    TableFill {
        table: TableId,
    },
    TableInit {
        table: TableId,
        elem: ElementId,
    },
    ElemDrop {
        elem: ElementId,
    },
    TableCopy {
        src: TableId,
        dst: TableId,
    },

    Load {
        memory: MemoryId,
        kind: LoadKind,
        arg: MemArg,
    },
    Store {
        memory: MemoryId,
        kind: StoreKind,
        arg: MemArg,
    },
    LoadSimd {
        memory: MemoryId,
        kind: LoadSimdKind,
        arg: MemArg,
    },
    MemorySize {
        memory: MemoryId,
    },
    MemoryGrow {
        memory: MemoryId,
    },
    MemoryInit {
        memory: MemoryId,
        data: DataId,
    },
    DataDrop {
        data: DataId,
    },
    MemoryCopy {
        src: MemoryId,
        dst: MemoryId,
    },
    MemoryFill {
        memory: MemoryId,
    },
    AtomicRmw {
        memory: MemoryId,
        op: AtomicOp,
        width: AtomicWidth,
        arg: MemArg,
    },
    Cmpxchg {
        memory: MemoryId,
        width: AtomicWidth,
        arg: MemArg,
    },
    AtomicNotify {
        memory: MemoryId,
        arg: MemArg,
    },
    AtomicWait {
        memory: MemoryId,
        arg: MemArg,
        sixty_four: bool,
    },
    AtomicFence,

    RefNull {
        ty: RefType,
    },
    RefIsNull,
    RefFunc {
        func: FunctionId,
    },
    RefEq,
    RefAsNonNull,
    RefTest {
        ty: RefType,
    },
    RefCast {
        ty: RefType,
    },
    RefI31,
    I31GetS,
    I31GetU,
    AnyConvertExtern,
    ExternConvertAny,

    StructNew {
        ty: TypeId,
    },
    StructNewDefault {
        ty: TypeId,
    },
    StructGet {
        ty: TypeId,
        field: u32,
    },
    StructGetS {
        ty: TypeId,
        field: u32,
    },
    StructGetU {
        ty: TypeId,
        field: u32,
    },
    StructSet {
        ty: TypeId,
        field: u32,
    },
    ArrayNew {
        ty: TypeId,
    },
    ArrayNewDefault {
        ty: TypeId,
    },
    ArrayNewFixed {
        ty: TypeId,
        size: u32,
    },
    ArrayNewData {
        ty: TypeId,
        data: DataId,
    },
    ArrayNewElem {
        ty: TypeId,
        elem: ElementId,
    },
    ArrayGet {
        ty: TypeId,
    },
    ArrayGetS {
        ty: TypeId,
    },
    ArrayGetU {
        ty: TypeId,
    },
    ArraySet {
        ty: TypeId,
    },
    ArrayLen,
    ArrayFill {
        ty: TypeId,
    },
    ArrayCopy {
        src: TypeId,
        dst: TypeId,
    },
    ArrayInitData {
        ty: TypeId,
        data: DataId,
    },
    ArrayInitElem {
        ty: TypeId,
        elem: ElementId,
    },
}

impl Instr {
    /// Whether the instructions after it in its sequence are never reached.
    pub fn following_instructions_are_unreachable(&self) -> bool
        ensures { result ≡ cuts self.now }
    {
        matches!(
            self,
            Instr::Unreachable
                | Instr::Br { .. }
                | Instr::BrTable { .. }
                | Instr::Return
                | Instr::Throw { .. }
                | Instr::ThrowRef
                | Instr::Rethrow { .. }
        )
    }
}
