//! Types, instructions and trees of a WebAssembly module, with ids in place of indices: arenas, the table of
//! types, constant expressions, bodies as trees of sequences, what builds them and what walks over them.
#![tactic(auto)]

pub use walrus_arena::{
    ArenaSet, DataId, DataSpace, ElementId, ElementSpace, ExportId, ExportSpace, FunctionId,
    FunctionSpace, GlobalId, GlobalSpace, Id, IdHashMap, IdHashSet, Ids, ImportId, ImportSpace,
    InstrSeqId, InstrSeqSpace, Iter, LocalId, LocalSpace, MemoryId, MemorySpace, RecGroupId,
    RecGroupSpace, TableId, TableSpace, TagId, TagSpace, Tombstone, TombstoneArena, TypeId,
    TypeSpace, UntypedCustomSectionId, UntypedCustomSectionSpace,
};
pub use walrus_builder::{
    FunctionBuilder, InstrSeqBuilder, check_nesting, dfs_body_in_order, dfs_in_order,
    dfs_pre_order_mut,
};
pub use walrus_instr::{
    AtomicOp, AtomicWidth, BinaryOp, Bits128, ConstExpr, ConstOp, ExtendedLoad, Instr, InstrLocId,
    InstrSeq, InstrSeqType, LegacyCatch, LoadKind, LoadSimdKind, MemArg, SeqType, ShuffleIndices,
    StoreKind, TernaryOp, TryTableCatch, UnaryOp, Value,
};
pub use walrus_tree::check_tree;
pub use walrus_types::{
    AbstractHeapType, ArrayType, CompositeRecord, CompositeType, EmittedTypes, FieldRecord,
    FieldType, FunctionType, GroupRecord, HeapRecord, HeapType, IrError, Local, ModuleLocals,
    ModuleTypes, NewType, RecGroup, RecGroups, RefRecord, RefType, StorageRecord, StorageType,
    StructType, Type, TypeIndices, TypeRecord, Types, ValRecord, ValType,
};
pub use walrus_walks::{Visit, VisitMut, Visitor, VisitorMut};

/// Laws of the words that contracts cite.
pub mod laws {
    pub use walrus_arena::laws as arenas;
    pub use walrus_builder::laws as building;
    pub use walrus_forms::laws as forms;
    pub use walrus_instr::laws as constants;
    pub use walrus_tree::laws as trees;
    pub use walrus_type_order::laws as sorting;
    pub use walrus_types::laws as types;
    pub use walrus_walks::{laws as walks, visit_laws as visits};

    /// Laws of tables of types: what is read and emitted, once and again, after edits, and in another order;
    /// and what edits keep of tables and locals.
    pub mod tables {
        pub use walrus_type_laws::edited::{
            emitted_are_ordinary, local_ids_are_kept, own_ids_are_kept, records_are_ordinary,
            settled_is_kept,
        };
        pub use walrus_type_laws::parsed::{
            alike_tables_are_written_alike, edited_are_read_back, edited_are_sound,
            edited_are_written_again, second_round_is_first, sections_are_carried,
        };
        pub use walrus_type_laws::swapped::{records_have_no_entries, swap_changes_nothing};
    }
}
