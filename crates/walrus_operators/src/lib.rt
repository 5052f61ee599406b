//! Operators, read one by one, and written in their shortest spelling (Core Specification, binary format: instructions).
#![tactic(auto)]

// What a call gives; a refusal is handed on. (`?` would convert it, though both are of one type: a call more for each, and longer proofs.)
macro_rules! got {
    ($call:expr) => {
        match $call {
            Ok(found) => found,
            Err(error) => return Err(error),
        }
    };
}

// What was written stays, or the caller hands the refusal on.
macro_rules! put {
    ($call:expr) => {
        match $call {
            Ok(()) => {}
            Err(error) => return Err(error),
        }
    };
}

mod copies;
mod immediates;
pub mod laws;
mod operator;
mod read;
mod reader;
mod write;
mod write_types;
mod writer;

pub use immediates::Immediates;
pub use operator::Operator;
pub use reader::{OperatorError, OperatorReader};
pub use wasm_operators::{write_bits32, write_bits64, write_byte, write_signed, write_unsigned};
pub use write::{write_access, write_index};
pub use write_types::{write_block_type, write_value_type};
pub use writer::{write_code, write_operator};

// Passed on to crates above, which then list this one alone.
pub mod immediate_forms {
    pub use wasm_operators::MemoryAccess;

    pub mod reader {
        pub mod features {
            pub use wasm_operators::reader::features::WasmFeatures;
        }
    }
}

pub mod operator_table {
    pub use wasm_operators::{Entry, Flow, Kind, OpCode};
}

pub mod ref_types {
    pub use wasm_operators::ref_types::ValType;
}

pub mod the_reader {
    pub use wasm_operators::reader::{Error, ErrorKind, Ieee32, Ieee64};
}
