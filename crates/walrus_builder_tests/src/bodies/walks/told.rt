//! What walks tell of a body, and what the walk that changes makes of it.
use super::log::Log;
use crate::bodies::forms::id;
use crate::bodies::view::are_seqs;
use std::alloc::{AllocError, Global};
use walrus_builder::{
    FunctionBuilder, check_nesting, dfs_body_in_order, dfs_in_order, dfs_pre_order_mut,
};
use walrus_instr::InstrSeq;

/// The walks over a body.
#[derive(Clone, Copy)]
pub enum Walk {
    InOrder,
    /// Without the type of the body's own sequence.
    OfBody,
    /// Over its list of sequences.
    OfList,
    Changing,
}

// Walks the body, if it nests.
fn go(
    alloc: Global,
    body: &mut FunctionBuilder,
    log: &mut Log,
    kind: Walk,
) -> Result<(), AllocError> {
    let start = body.func_body_id();
    if !check_nesting(alloc, body, start)? {
        return Ok(());
    }
    match kind {
        Walk::InOrder => dfs_in_order(alloc, log, body, start),
        Walk::OfBody => dfs_body_in_order(alloc, log, body),
        Walk::OfList => walrus_walks::dfs_in_order(alloc, log, body.seqs(), start),
        Walk::Changing => dfs_pre_order_mut(alloc, log, body, start),
    }
}

// Whether the text begins so.
fn begins(text: &[u8], front: &[u8]) -> bool {
    front.len() <= text.len() && &text[..front.len()] == front
}

// What was told is a first part of the text, and all of it just where the walk wasn't refused. `rt try --test --fail-alloc N` refuses the Nth
// growth: for some N one of the list of a walk.
fn is_told(walked: Result<(), AllocError>, log: &Log, whole: &[u8]) -> bool {
    !log.refused
        && begins(whole, log.text.as_slice())
        && (log.text.len() == whole.len()) == walked.is_ok()
}

/// Whether the walk tells this text.
pub fn tells(
    alloc: Global,
    body: &mut FunctionBuilder,
    kind: Walk,
    text: &[u8],
) -> Result<bool, AllocError> {
    let mut log = Log::new(alloc, 400)?;
    let walked = go(alloc, body, &mut log, kind);
    Ok(is_told(walked, &log, text))
}

/// Whether the walk in order tells so many bytes.
pub fn has_length(
    alloc: Global,
    body: &mut FunctionBuilder,
    length: u64,
) -> Result<bool, AllocError> {
    let mut log = Log::new(alloc, 0)?;
    go(alloc, body, &mut log, Walk::InOrder)?;
    Ok(!log.refused && log.text.len() as u64 == length)
}

fn push_copy(seq: &InstrSeq, copies: &mut Vec<InstrSeq>) -> Result<(), AllocError> {
    copies.push(seq.clone()?)?;
    Ok(())
}

fn copy_all(seqs: &[InstrSeq], copies: &mut Vec<InstrSeq>) -> Result<(), AllocError> {
    for seq in seqs {
        push_copy(seq, copies)?;
    }
    Ok(())
}

// Walks the list from its first sequence, if that nests.
fn change_list(alloc: Global, seqs: &mut [InstrSeq]) -> Result<(), AllocError> {
    let start = id(0);
    if !walrus_walks::check_nesting(alloc, seqs, start)? {
        return Ok(());
    }
    let mut log = Log::new(alloc, 0)?;
    walrus_walks::dfs_pre_order_mut(alloc, &mut log, seqs, start)
}

// Fills the list with copies, and changes those if they are to be changed.
fn fill_copies(
    alloc: Global,
    seqs: &[InstrSeq],
    copies: &mut Vec<InstrSeq>,
    are_changed: bool,
) -> Result<(), AllocError> {
    copy_all(seqs, copies)?;
    if are_changed {
        change_list(alloc, copies.as_mut_slice())?;
    }
    Ok(())
}

/// Whether copies of the sequences are as the text says, changed or as they are.
pub fn are_copies(
    alloc: Global,
    seqs: &[InstrSeq],
    are_changed: bool,
    text: &[u8],
) -> Result<bool, AllocError> {
    let mut copies = Vec::new(alloc);
    fill_copies(alloc, seqs, &mut copies, are_changed)?;
    Ok(are_seqs(copies.as_slice(), text))
}

/// Whether the body is as the text says once it is changed, and its type as before.
pub fn is_changed(
    alloc: Global,
    body: &mut FunctionBuilder,
    text: &[u8],
) -> Result<bool, AllocError> {
    let mut log = Log::new(alloc, 0)?;
    go(alloc, body, &mut log, Walk::Changing)?;
    Ok(body.ty().index() == 0 && are_seqs(body.seqs(), text))
}
