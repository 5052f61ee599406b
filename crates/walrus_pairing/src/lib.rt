//! Plain operators of files paired with instructions, both ways, over maps of indices and ids; laws of operators and the instructions that
//! they are read as.
#![tactic(auto)]

// What there is, or the caller answers why there is nothing: three calls less than by `?`.
macro_rules! got {
    ($found:expr) => {
        match $found {
            Ok(found) => found,
            Err(fault) => return Err(fault),
        }
    };
}

// A code, written out: a call for each would be half of what the proofs of the large matches take.
macro_rules! code {
    ($prefix:literal, $number:literal) => {
        OpCode {
            prefix: $prefix,
            number: $number,
        }
    };
}

mod code_tables;
mod error;
mod families;
mod instructions;
pub mod laws;
mod named;
mod spaces;
mod to_instr;
mod to_operator;
mod types;
mod written;

pub use error::PairError;
pub use to_instr::instr_of;
pub use to_operator::operator_of;
pub use types::{read_heap, read_value, write_heap, write_value};

// Passed on to crates above, which then list this one alone.
pub mod access_codes {
    pub use crate::code_tables::code_of_store;
    pub use walrus_codes::code_of_load;

    pub mod instr {
        pub use walrus_instr::{MemArg, Value};
    }

    pub mod operator_codes {
        pub use crate::code_tables::{
            byte, code_of_binary, code_of_unary, lane_of_binary, lane_of_unary,
        };
    }
}

pub mod operator_codes {
    pub use crate::code_tables::{byte, object};
}

pub mod operators {
    pub use walrus_operators::{Immediates, Operator};
}

pub mod type_table {
    pub use walrus_instr::type_table::{ModuleLocals, ValType};
}
