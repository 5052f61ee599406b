//! Reads WebAssembly's binary format byte by byte: numbers, names and runs of bytes.
#![tactic(auto)]

mod error;
mod floats;
mod from_reader;
mod items;
pub mod laws;
pub mod limits;
mod number;
mod reader;
mod text;

pub use error::{Error, ErrorKind, Result};
pub use floats::{Ieee32, Ieee64};
pub use from_reader::FromReader;
pub use items::BinaryReaderIter;
pub use reader::BinaryReader;
pub use wasm_features::{WasmFeatures, WasmFeaturesInflated};

// Passed on to crates above, which then list this one alone.
pub mod features {
    pub use wasm_features::WasmFeatures;
}
