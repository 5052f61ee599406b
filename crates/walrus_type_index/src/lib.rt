//! An ordered index of the types of a table.
#![tactic(auto)]

mod flat;
mod forest;
mod hash;
mod index;
pub mod laws;
mod lent;
mod marks;
mod node;
mod node_list;
mod order;

pub use hash::{group_hash, type_hash};
pub use index::{AHEAD, Index};
pub use lent::{enter, enter_hashed, lend, settle};
pub use marks::is_marked;
pub use node::Hashed;
pub use order::Target;

// Passed on to crates above, which then list this one alone.
pub mod arena {
    pub use walrus_items::arena::{
        DataId, ElementId, FunctionId, GlobalId, InstrSeqId, Iter, LocalId, MemoryId, RecGroupId,
        RecGroupSpace, TableId, TagId, TombstoneArena, TypeId, TypeSpace,
    };
}

pub mod forms {
    pub use walrus_items::forms::{
        AbstractHeapType, ArrayType, CompositeRecord, CompositeType, FieldRecord, FieldType,
        FunctionType, GroupRecord, HeapRecord, HeapType, RefRecord, RefType, StorageRecord,
        StorageType, StructType, TypeRecord, ValRecord, ValType, index_of,
    };
}

pub mod items {
    pub use walrus_items::{Local, ModuleLocals, RecGroup, Type};
}
