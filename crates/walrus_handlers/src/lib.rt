//! The handlers of a legacy `try` in a body that was read beside some type for each of them: which of its sequences they are.
#![tactic(auto)]

mod any;
mod gather;

pub use any::AnyHandler;
pub use gather::{handlers, handlers_if};
pub use walrus_handler_laws::{Handler, laws};

// Passed on to crates above, which then list this one alone.
pub mod tree {
    pub use walrus_tree::check_tree;

    pub mod builder {
        pub use walrus_tree::builder::FunctionBuilder;

        pub mod tree_walks {
            pub mod instr {
                pub use walrus_instr::InstrSeqType;

                pub mod type_table {
                    pub use walrus_instr::type_table::{ModuleTypes, ValType};
                }
            }
        }
    }
}
