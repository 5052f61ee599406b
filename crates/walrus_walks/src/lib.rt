//! Walks over the sequences of a body, with hooks for what is met.
#![tactic(auto)]

mod in_order;
mod insert;
pub mod laws;
mod nesting;
mod pre_order_mut;
mod steps;
mod visit;
mod visit_const;
pub mod visit_laws;
mod visit_mut;
mod visitor;
mod visitor_mut;

pub use in_order::{dfs_body_in_order, dfs_in_order};
pub use insert::insert_at;
pub use nesting::check_nesting;
pub use pre_order_mut::dfs_pre_order_mut;
pub use visit::Visit;
pub use visit_mut::VisitMut;
pub use visitor::Visitor;
pub use visitor_mut::VisitorMut;

// Passed on to crates above, which then list this one alone.
pub mod instr {
    pub use walrus_instr::{
        AtomicOp, AtomicWidth, BinaryOp, Instr, InstrLocId, InstrSeq, InstrSeqType, LegacyCatch,
        LoadKind, LoadSimdKind, MemArg, SeqType, ShuffleIndices, StoreKind, TernaryOp,
        TryTableCatch, UnaryOp, Value,
    };

    pub mod type_table {
        pub use walrus_instr::type_table::{ModuleTypes, RefType, ValType};
    }
}

pub mod type_table {
    pub use walrus_instr::type_table::{ModuleTypes, RefType, ValType};
}
