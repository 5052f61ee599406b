//! What opens a sequence, and whether it is reached.

use walrus_body_env::instr::TryTableCatch;

/// What opened a block.
#[derive(Drop)]
pub enum Opener {
    /// `block`, or the body itself.
    Block,
    /// `loop`.
    Loop,
    /// `if`.
    If,
    /// A legacy `try`.
    Try,
    /// `try_table`, with its clauses.
    TryTable(Vec<TryTableCatch>),
}

/// Whether the next operator is reached.
#[derive(Clone, Copy, Debug, PartialEq, Eq)]
pub enum Reach {
    /// It is.
    Live,
    /// It isn't, but its sequence was.
    Cut,
    /// The whole block isn't.
    Dropped,
}
