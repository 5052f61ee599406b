//! How many items of each kind there are.

/// How many items of each kind live in a module (Core Specification, modules).
#[derive(Clone, Copy, Debug, PartialEq, Eq)]
pub struct Counts {
    /// Types, but for the entry types of bodies.
    pub types: u64,
    pub functions: u64,
    pub tables: u64,
    pub memories: u64,
    pub tags: u64,
    pub globals: u64,
    pub elements: u64,
    pub data: u64,
    pub imports: u64,
    pub exports: u64,
    /// The operators of all bodies, but for `else`, `end`, `catch`, `catch_all` and `delegate`.
    pub operators: u64,
}
