//! The types of WebAssembly as a module's table holds them: by id in place of index.
#![tactic(auto)]

mod copies;
mod emit;
pub mod error;
pub mod group;
mod iter;
pub mod laws;
mod pair;
mod parse;
mod table;

pub use emit::{EmittedTypes, TypeIndices};
pub use error::IrError;
pub use group::NewType;
pub use iter::{RecGroups, Types};
pub use table::ModuleTypes;
pub use walrus_type_arenas::type_index::forms::{
    AbstractHeapType, ArrayType, CompositeRecord, CompositeType, FieldRecord, FieldType,
    FunctionType, GroupRecord, HeapRecord, HeapType, RefRecord, RefType, StorageRecord,
    StorageType, StructType, TypeRecord, ValRecord, ValType,
};
pub use walrus_type_arenas::type_index::items::{Local, ModuleLocals, RecGroup, Type};

// Passed on to crates above, which then list this one alone.
pub mod arena {
    pub use walrus_type_arenas::type_index::arena::{
        DataId, ElementId, FunctionId, GlobalId, InstrSeqId, LocalId, MemoryId, TableId, TagId,
        TypeId,
    };
}
