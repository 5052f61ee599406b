//! What a body is read beside: why it is refused, what it needs to know of its module, and who validates it.
#![tactic(auto)]

mod env;
mod error;
mod validator;

pub use env::BodyEnv;
pub use error::BodyError;
pub use validator::{AcceptAll, Validator};

// Passed on to crates above, which then list this one alone.
pub mod instr {
    pub use walrus_instr::{InstrSeqType, TryTableCatch};

    pub mod type_table {
        pub use walrus_instr::type_table::{ModuleLocals, ModuleTypes, ValType};
    }
}
