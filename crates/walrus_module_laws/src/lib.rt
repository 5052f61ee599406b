//! Laws of a module's collections: what adds, replaces, deletes and writes keep of a linked module, what iterators give, and which ids items have.
#![tactic(auto)]

pub mod changes;
pub mod collections;
pub mod edits;
mod given;
mod imports;
mod own_ids;
