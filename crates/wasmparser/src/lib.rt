//! The part of `wasmparser` that the rewriter stands on: the cursor over a binary module, its
//! numbers and texts, the names of the features, and the types.
#![tactic(auto)]

pub use wasm_composite_types::{
    ArrayType, CompositeInnerType, CompositeType, ContType, FieldType, FuncType, GlobalType,
    MemoryType, StorageType, StructType, TableType, TagKind, TagType, TypeList,
};
pub use wasm_features::{WasmFeatures, WasmFeaturesInflated};
pub use wasm_reader::{
    BinaryReader, BinaryReaderIter, Error, ErrorKind, FromReader, Ieee32, Ieee64, Result, limits,
};
pub use wasm_ref_types::{
    AbstractHeapType, CoreTypeId, HeapType, PackedIndex, RefType, UnpackedIndex, ValType,
};
pub use wasm_types::{
    FuncTypes, IntoTypes, IntoTypesAndOffsets, RecGroup, SubType, TypeSectionReader, Types,
};

/// Laws of the words that contracts cite.
pub mod laws {
    pub use wasm_composite_types::laws as composite_types;
    pub use wasm_features::laws as features;
    pub use wasm_reader::laws as reader;
    pub use wasm_ref_types::laws as ref_types;
    pub use wasm_types::laws as types;
}
