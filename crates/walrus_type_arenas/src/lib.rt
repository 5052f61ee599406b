//! The arenas of a table of types: what is looked up in them, added to them and deleted from them, and how they are written. The
//! table itself stands above.
#![tactic(auto)]

mod delete;
mod emit;
mod error;
mod group;
mod index;
mod members;
mod rank;

pub use delete::{clear_each, clear_unkept, home_of, leave_group, members_name, sweep};
pub use emit::{group_records, groups_in_order, indices_of, written_of};
pub use error::IrError;
pub use group::{
    NewType, append_counted, append_members, ids_from, one_member, push_single, push_single_hashed,
    reserve_singles,
};
pub use index::{found_function, look_up, look_up_entry, look_up_hashed};
pub use members::{is_single, resolve, resolve_all};

// Passed on to crates above, which then list this one alone.
pub mod type_index {
    pub use walrus_type_index::{AHEAD, Index, group_hash, lend, settle, type_hash};

    pub mod arena {
        pub use walrus_type_index::arena::{
            DataId, ElementId, FunctionId, GlobalId, InstrSeqId, Iter, LocalId, MemoryId,
            RecGroupId, RecGroupSpace, TableId, TagId, TombstoneArena, TypeId, TypeSpace,
        };
    }

    pub mod forms {
        pub use walrus_type_index::forms::{
            AbstractHeapType, ArrayType, CompositeRecord, CompositeType, FieldRecord, FieldType,
            FunctionType, GroupRecord, HeapRecord, HeapType, RefRecord, RefType, StorageRecord,
            StorageType, StructType, TypeRecord, ValRecord, ValType,
        };
    }

    pub mod items {
        pub use walrus_type_index::items::{Local, ModuleLocals, RecGroup, Type};
    }
}
