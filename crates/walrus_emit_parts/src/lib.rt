//! What sections are made of is written, each part behind what there is, in its shortest spelling.
#![tactic(auto)]

// What was written stays, or the caller hands the refusal on.
macro_rules! put {
    ($call:expr) => {
        match $call {
            Ok(()) => {}
            Err(error) => return Err(error),
        }
    };
}

mod leaves;
mod parts;

pub use leaves::{
    write_bits32, write_bits64, write_byte, write_bytes, write_code, write_name, write_number,
    write_signed, write_sized_bytes, write_text,
};
pub use parts::{Entry, Part, put_front, write_each, write_section, write_sized, write_vec};
