//! Heap types, reference types and value types of WebAssembly (Core Specification, types), read from the binary format.
#![tactic(auto)]

mod constants;
mod heap;
mod index;
pub mod laws;
mod read;
mod reference;
mod text;
mod value;

pub use heap::{AbstractHeapType, HeapType};
pub use index::{CoreTypeId, PackedIndex, UnpackedIndex};
pub use reference::RefType;
pub use value::ValType;

// Passed on to crates above, which then list this one alone.
pub mod features {
    pub use wasm_reader::features::WasmFeatures;
}

pub mod reader {
    pub use wasm_reader::{
        BinaryReader, Error, ErrorKind, FromReader, Ieee32, Ieee64, Result, WasmFeatures,
    };

    pub mod features {
        pub use wasm_reader::features::WasmFeatures;
    }

    pub mod limits {
        pub use wasm_reader::limits::{
            MAX_WASM_FUNCTION_PARAMS, MAX_WASM_FUNCTION_RETURNS, MAX_WASM_STRUCT_FIELDS,
        };
    }
}
