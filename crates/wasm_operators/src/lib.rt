//! Operators as bytes (Core Specification, binary format: instructions; the proposals on legacy exceptions, threads and wide arithmetic): their
//! table with their codes, what may follow a code, item by item, what is written for an operator, what it names, and operators renamed, with
//! laws as functions with nothing to do; and the numbers in them, which are written in their shortest spelling (values).
#![tactic(auto)]

// What a call gives; a refusal is handed on. (`?` would convert it, though both are of one type: a call more for each, and longer proofs.)
macro_rules! got {
    ($call:expr) => {
        match $call {
            Ok(found) => found,
            Err(error) => return Err(error),
        }
    };
}

mod access;
mod block_type;
mod clause;
mod entry;
pub mod laws;
mod memory_access;
mod number;
mod op_code;
mod small;
mod table;

pub use access::read_access;
pub use block_type::BlockType;
pub use clause::Clause;
pub use entry::{Entry, Flow, Gate, Kind};
pub use memory_access::MemoryAccess;
pub use number::{
    write_bits32, write_bits64, write_byte, write_bytes, write_signed, write_unsigned,
};
pub use op_code::OpCode;
pub use small::{read_below, read_zero};

// Passed on to crates above, which then list this one alone.
pub mod reader {
    pub use wasm_composite_types::reader::{
        BinaryReader, Error, ErrorKind, FromReader, Ieee32, Ieee64, Result, WasmFeatures,
    };

    pub mod features {
        pub use wasm_composite_types::reader::features::WasmFeatures;
    }
}

pub mod ref_types {
    pub use wasm_composite_types::ref_types::{HeapType, ValType};
}
