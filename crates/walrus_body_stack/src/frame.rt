//! What an open sequence is.

ghost use Rattle.std.specs.Prelude.{◌≡◌};
ghost use Rattle.walrus_body_nesting.specs.Opens.{reach_in, reach_on};

use walrus_arena::InstrSeqId;
use walrus_body_nesting::Reach;
use walrus_instr::{InstrLocId, InstrSeqType};

/// Which part of which block a sequence is.
#[derive(Clone, Copy)]
pub(crate) enum Sort {
    /// A block, or the body itself.
    Block,
    /// A loop.
    Loop,
    /// The first part of an `if`.
    Then,
    /// Its other part.
    Else,
    /// A legacy `try` before its handlers.
    Try,
    /// A handler for the exceptions of a tag.
    Catch,
    /// The handler for all exceptions.
    CatchAll,
    /// A `try_table`.
    TryTable,
}

/// An open sequence, but for its instructions, and for the handlers or clauses of its block.
#[derive(Clone, Copy)]
pub(crate) struct Frame {
    // The block's type, where it was opened and its first sequence.
    pub(crate) ty: InstrSeqType,
    pub(crate) place: InstrLocId,
    pub(crate) first: InstrSeqId,
    // The sequence.
    pub(crate) seq: InstrSeqId,
    pub(crate) sort: Sort,
    pub(crate) reach: Reach,
}

/// Whether the first operator of a block is reached.
pub(crate) fn inner_reach(reach: Reach) -> Reach
    ensures { result ≡ reach_in reach }
{
    match reach {
        Reach::Live => Reach::Live,
        Reach::Cut => Reach::Dropped,
        Reach::Dropped => Reach::Dropped,
    }
}

/// Whether the first operator of its next part is reached.
pub(crate) fn next_reach(reach: Reach) -> Reach
    ensures { result ≡ reach_on reach }
{
    match reach {
        Reach::Live => Reach::Live,
        Reach::Cut => Reach::Live,
        Reach::Dropped => Reach::Dropped,
    }
}
