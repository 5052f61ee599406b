//! Building of bodies, instruction by instruction.
#![tactic(auto)]

mod blocks;
mod function;
pub mod laws;
mod plain_control;
mod plain_memory;
mod plain_reference;
mod seq_builder;
mod walks;

pub use function::FunctionBuilder;
pub use seq_builder::InstrSeqBuilder;
pub use walks::{check_nesting, dfs_body_in_order, dfs_in_order, dfs_pre_order_mut};

// Passed on to crates above, which then list this one alone.
pub mod instr {
    pub use walrus_walks::instr::{
        Instr, InstrLocId, InstrSeq, InstrSeqType, LegacyCatch, TryTableCatch,
    };

    pub mod type_table {
        pub use walrus_walks::instr::type_table::{RefType, ValType};
    }
}

pub mod tree_walks {
    pub use walrus_walks::Visitor;

    pub mod instr {
        pub use walrus_walks::instr::{
            Instr, InstrLocId, InstrSeq, InstrSeqType, LegacyCatch, Value,
        };

        pub mod type_table {
            pub use walrus_walks::instr::type_table::{ModuleTypes, ValType};
        }
    }

    pub mod laws {
        pub use walrus_walks::laws::{held_are_nested, ranks_fit, walk_is_plain};
    }
}
