//! Frames: what is known of a block that is read.

ghost use Rattle.walrus_body_frames.specs.Frames.{IsFresh};

use std::alloc::Global;
use walrus_arena::InstrSeqId;
use walrus_instr::{Instr, InstrLocId, InstrSeqType, LegacyCatch};

/// What a frame is.
#[derive(Clone, Copy, Debug, PartialEq, Eq)]
pub enum BlockKind {
    /// The body itself.
    FunctionEntry,
    Block,
    Loop,
    /// The first part of an `if`.
    If,
    /// The other part of an `if`.
    Else,
    /// A legacy `try` before its handlers.
    Try,
    /// A handler of a legacy `try`.
    Catch,
    /// The handler of a legacy `try` for all exceptions.
    CatchAll,
    TryTable,
}

/// An open frame.
#[derive(Drop)]
pub struct ControlFrame {
    /// What it is.
    pub kind: BlockKind,
    /// The type of its sequence.
    pub ty: InstrSeqType,
    /// Its sequence.
    pub block: InstrSeqId,
    /// Whether what comes next is not reached.
    pub unreachable: bool,
    /// The parts of a legacy `try` so far.
    pub catches: Vec<LegacyCatch>,
    // The instructions so far: they are given to the sequence as the frame closes.
    pub(crate) instrs: Vec<(Instr, InstrLocId)>,
}

impl ControlFrame {
    /// A frame of an empty sequence.
    pub(crate) fn new(alloc: Global, kind: BlockKind, ty: InstrSeqType, block: InstrSeqId) -> Self
        ensures { IsFresh kind ty block result }
    {
        ControlFrame {
            kind,
            ty,
            block,
            unreachable: false,
            catches: Vec::new(alloc),
            instrs: Vec::new(alloc),
        }
    }
}

/// An `if` of which the first part was read.
#[derive(Clone, Copy, Debug)]
pub struct IfElseState {
    /// Where the `if` stood.
    pub start: InstrLocId,
    /// The sequence of its first part.
    pub consequent: InstrSeqId,
    /// The sequence of its other part, once there is one.
    pub alternative: Option<InstrSeqId>,
}
