//! The text of a tree, walked piece by piece, and tested on the way to be one.
#![tactic(auto)]

mod depths;
mod size;
mod todo;
mod todos;
mod visit;
mod walk;

pub use depths::Depths;
pub use size::body_size;
pub use todo::{Closer, Met, Place, Todo};
pub use todos::Todos;
pub use visit::{TextVisitor, visit_once, visit_text};
pub use walk::{advance, begin, item_at, plain_at, seq_at};

// Passed on to crates above, which then list this one alone.
pub mod body_env {
    pub use walrus_body_env::{BodyEnv, BodyError, Validator};
}

pub mod tree {
    pub use walrus_tree::check_tree;

    pub mod builder {
        pub use walrus_tree::builder::FunctionBuilder;
    }

    pub mod instr {
        pub use walrus_tree::instr::{Instr, InstrLocId, InstrSeq, InstrSeqType, TryTableCatch};

        pub mod type_table {
            pub use walrus_tree::instr::type_table::{RefType, ValType};
        }
    }

    pub mod laws {
        pub use walrus_tree::laws::{text_is_plain, trees_are_nested, trees_are_sound};
    }
}
