//! Trees of sequences: whether the sequences of a body form one.
#![tactic(auto)]

mod check;
pub mod laws;
pub mod marks;
mod steps;
mod tree;

pub use tree::check_tree;

// Passed on to crates above, which then list this one alone.
pub mod builder {
    pub use walrus_builder::{FunctionBuilder, dfs_in_order};

    pub mod tree_walks {
        pub use walrus_builder::tree_walks::Visitor;

        pub mod instr {
            pub use walrus_builder::tree_walks::instr::{
                Instr, InstrLocId, InstrSeq, InstrSeqType, LegacyCatch, Value,
            };

            pub mod type_table {
                pub use walrus_builder::tree_walks::instr::type_table::{ModuleTypes, ValType};
            }
        }
    }
}

pub mod instr {
    pub use walrus_builder::instr::{
        Instr, InstrLocId, InstrSeq, InstrSeqType, LegacyCatch, TryTableCatch,
    };

    pub mod type_table {
        pub use walrus_builder::instr::type_table::{RefType, ValType};
    }
}
