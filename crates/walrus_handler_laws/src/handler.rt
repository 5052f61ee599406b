//! A handler of a legacy `try`.

use walrus_arena::TypeId;
use walrus_tree::builder::tree_walks::instr::InstrSeqType;

/// What gives the type of a handler's sequence (Core Specification, legacy exceptions): from the parameters of its tag to the results of its `try`.
#[derive(Clone, Copy)]
pub struct Handler {
    /// The type of its tag; none for a `catch_all`, which has no parameters.
    pub tag_type: Option<TypeId>,
    /// The type of its `try`.
    pub block: InstrSeqType,
}
