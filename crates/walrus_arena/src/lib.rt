//! Arenas: items under ids, live or dead, where no id is given out twice.
#![tactic(auto)]

mod arena;
mod id;
mod iter;
pub mod laws;
mod live;
mod set;

pub use arena::{Tombstone, TombstoneArena};
pub use id::{
    DataId, DataSpace, ElementId, ElementSpace, ExportId, ExportSpace, FunctionId, FunctionSpace,
    GlobalId, GlobalSpace, Id, IdHashMap, IdHashSet, ImportId, ImportSpace, InstrSeqId,
    InstrSeqSpace, LocalId, LocalSpace, MemoryId, MemorySpace, RecGroupId, RecGroupSpace, TableId,
    TableSpace, TagId, TagSpace, TypeId, TypeSpace, UntypedCustomSectionId,
    UntypedCustomSectionSpace,
};
pub use iter::{Ids, Iter};
pub use set::ArenaSet;
