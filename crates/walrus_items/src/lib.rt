//! What a module's tables hold: types, recursion groups and locals.
#![tactic(auto)]

mod local;
mod names;
mod subtype;

pub use local::{Local, ModuleLocals};
pub use subtype::{RecGroup, Type};

// Passed on to crates above, which then list this one alone.
pub mod arena {
    pub use walrus_forms::arena::{
        DataId, ElementId, FunctionId, GlobalId, InstrSeqId, Iter, LocalId, MemoryId, RecGroupId,
        RecGroupSpace, TableId, TagId, TombstoneArena, TypeId, TypeSpace,
    };
}

pub mod forms {
    pub use walrus_forms::{
        AbstractHeapType, ArrayType, CompositeRecord, CompositeType, FieldRecord, FieldType,
        FunctionType, GroupRecord, HeapRecord, HeapType, RefRecord, RefType, StorageRecord,
        StorageType, StructType, TypeRecord, ValRecord, ValType, index_of,
    };
}
