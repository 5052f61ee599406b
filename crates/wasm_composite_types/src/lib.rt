//! Composite types of WebAssembly, read from the binary format, and the types of a module's tables, memories, globals
//! and tags (Core Specification, types).
#![tactic(auto)]

mod entity;
mod field;
mod form;
pub mod laws;
mod list;
pub mod read;
pub mod remap;

pub use entity::{GlobalType, MemoryType, TableType, TagKind, TagType};
pub use field::{FieldType, StorageType};
pub use form::{ArrayType, CompositeInnerType, CompositeType, ContType, FuncType, StructType};
pub use list::TypeList;

// Passed on to crates above, which then list this one alone.
pub mod reader {
    pub use wasm_ref_types::reader::{
        BinaryReader, Error, ErrorKind, FromReader, Ieee32, Ieee64, Result, WasmFeatures,
    };

    pub mod features {
        pub use wasm_ref_types::reader::features::WasmFeatures;
    }
}

pub mod ref_types {
    pub use wasm_ref_types::{HeapType, PackedIndex, ValType};
}
