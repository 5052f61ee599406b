//! The forms of WebAssembly's types: value types, fields, functions, structures and arrays, which name
//! types by id; and the records of a type section, which name them by index.
#![tactic(auto)]

mod composite;
mod describe;
pub mod laws;
mod names;
mod record;
mod text;
mod value;

pub use composite::{ArrayType, CompositeType, FunctionType, StructType};
pub use describe::index_of;
pub use record::{
    CompositeRecord, FieldRecord, GroupRecord, HeapRecord, RefRecord, StorageRecord, TypeRecord,
    ValRecord,
};
pub use value::{AbstractHeapType, FieldType, HeapType, RefType, StorageType, ValType};

// Passed on to crates above, which then list this one alone.
pub mod arena {
    pub use walrus_arena::{
        DataId, ElementId, FunctionId, GlobalId, InstrSeqId, Iter, LocalId, MemoryId, RecGroupId,
        RecGroupSpace, TableId, TagId, Tombstone, TombstoneArena, TypeId, TypeSpace,
    };
}
