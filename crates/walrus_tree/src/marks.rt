//! Marks of sequences, and the labels that they allow.
ghost use Rattle.std.specs.Prelude.{◌≡◌};
ghost use Rattle.walrus_tree.specs.Testing.{open_at, all_open, clauses_open, delegates, within};
ghost use Rattle.walrus_tree.specs.Trees.{clause_label};

use walrus_arena::InstrSeqId;
use walrus_builder::instr::{Instr, LegacyCatch, TryTableCatch};

/// How far a sequence is tested.
#[derive(Clone, Copy)]
pub enum Mark {
    /// It wasn't entered.
    Fresh,
    /// It was entered, and not left.
    Open,
    /// It was left.
    Done,
}

// Whether the sequence is open.
fn is_open(marks: &[Mark], id: InstrSeqId) -> bool
    ensures { result ≡ open_at marks.now id }
{
    let index = id.index();
    if index >= marks.len() {
        return false;
    }
    match marks[index] {
        Mark::Open => true,
        Mark::Fresh => false,
        Mark::Done => false,
    }
}

fn are_open(marks: &[Mark], ids: &[InstrSeqId]) -> bool
    ensures { result ≡ all_open marks.now ids.now }
{
    for id in ids {
        if !is_open(marks, *id) {
            return false;
        }
    }
    true
}

fn label(clause: TryTableCatch) -> InstrSeqId
    ensures { result ≡ clause_label clause }
{
    match clause {
        TryTableCatch::Catch { label, .. } => label,
        TryTableCatch::CatchRef { label, .. } => label,
        TryTableCatch::CatchAll { label } => label,
        TryTableCatch::CatchAllRef { label } => label,
    }
}

fn are_clauses_open(marks: &[Mark], clauses: &[TryTableCatch]) -> bool
    ensures { result ≡ clauses_open marks.now clauses.now }
{
    for clause in clauses {
        if !is_open(marks, label(*clause)) {
            return false;
        }
    }
    true
}

// Whether nothing stands behind a `delegate`, whose number is below the depth.
fn delegates_within(parts: &[LegacyCatch], depth: usize) -> bool
    ensures { result ≡ delegates depth parts.now }
{
    let mut rest = parts;
    while let Some((first, after)) = rest.split_first() {
        if let LegacyCatch::Delegate { relative_depth } = first {
            return (*relative_depth as usize) < depth && after.is_empty();
        }
        rest = after;
    }
    true
}

/// Whether each label of the instruction names a sequence that is open, of which there are so many.
pub fn is_within(instr: &Instr, marks: &[Mark], depth: usize) -> bool
    ensures { result ≡ within marks.now depth instr.now }
{
    match instr {
        Instr::Br { block } => is_open(marks, *block),
        Instr::BrIf { block } => is_open(marks, *block),
        Instr::BrTable { blocks, default } => {
            are_open(marks, blocks.as_slice()) && is_open(marks, *default)
        }
        Instr::BrOnNull { block } => is_open(marks, *block),
        Instr::BrOnNonNull { block } => is_open(marks, *block),
        Instr::BrOnCast { block, .. } => is_open(marks, *block),
        Instr::BrOnCastFail { block, .. } => is_open(marks, *block),
        Instr::Rethrow { relative_depth } => (*relative_depth as usize) < depth,
        Instr::Try { catches, .. } => delegates_within(catches.as_slice(), depth),
        Instr::TryTable { catches, .. } => are_clauses_open(marks, catches.as_slice()),
        _ => true,
    }
}
