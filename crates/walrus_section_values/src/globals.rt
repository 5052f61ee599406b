//! Globals as they are read.

use walrus_forms::ValRecord;
use walrus_operators::Operator;

/// What a global comes from.
#[derive(Drop)]
pub enum GlobalOrigin {
    /// The import of this number.
    Import(usize),
    /// The module itself, with these operators to begin with.
    Own(Vec<Operator>),
}

/// A global.
#[derive(Drop)]
pub struct Global {
    /// The type of what it holds.
    pub ty: ValRecord,
    /// Whether it can be written.
    pub mutable: bool,
    /// What it comes from.
    pub origin: GlobalOrigin,
}
