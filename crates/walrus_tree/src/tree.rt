//! The test whether a function that is built is a tree.
ghost use Rattle.std.specs.Prelude.{IfOk, MatchBool};
ghost use Rattle.walrus_builder.specs.Functions.{seqs_of};
ghost use Rattle.walrus_tree.specs.Trees.{IsTree};

use crate::check::check_seqs;
use std::alloc::{AllocError, Global};
use walrus_arena::InstrSeqId;
use walrus_builder::FunctionBuilder;

/// Whether the sequences that the entry reaches form a tree in which each label names a sequence around it
/// (Core Specification, labels). Each is known and held once, the entry by none. A branch names the sequence
/// that it stands in or one around that, and so does a clause of a `try_table`. The number of a `rethrow` or a
/// `delegate` is below the count of these, and a `delegate` is the last part of its `try`.
///
/// Takes time and memory in proportion to the sequences of the body, and to the instructions and labels of
/// those that are reached.
///
/// # Errors
///
/// Want of memory.
pub fn check_tree(
    alloc: Global,
    body: &FunctionBuilder,
    entry: InstrSeqId,
) -> Result<bool, AllocError>
    ensures { IfOk result (λ tree. MatchBool tree (IsTree (seqs_of body.now) entry) (IsTree (seqs_of body.now) entry → ⊥)) }
{
    check_seqs(alloc, body.seqs(), entry)
}
