//! Instructions as nodes of a tree: sequences that hold instructions, which name sequences by id.
#![tactic(auto)]

mod bits;
mod const_expr;
mod copies;
mod instr;
pub mod laws;
mod memory;
mod operators;
mod seq;
mod seq_type;

pub use bits::Bits128;
pub use const_expr::{ConstExpr, ConstOp};
pub use instr::{Instr, LegacyCatch, ShuffleIndices, TryTableCatch, Value};
pub use memory::{AtomicOp, AtomicWidth, ExtendedLoad, LoadKind, LoadSimdKind, MemArg, StoreKind};
pub use operators::{BinaryOp, TernaryOp, UnaryOp};
pub use seq::{InstrLocId, InstrSeq, InstrSeqType};
pub use seq_type::SeqType;

// Passed on to crates above, which then list this one alone.
pub mod type_table {
    pub use walrus_types::{HeapType, ModuleLocals, ModuleTypes, RefType, ValType};
}
