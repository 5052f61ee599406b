//! Walks over a function that is built.
ghost use Rattle.std.specs.Prelude.{◌≡◌, IfOk, MatchBool, OnErr, map};
ghost use Rattle.std.specs.List.{FoldsTo};
ghost use Rattle.walrus_walks.specs.Changing.{Walked, WalkedPart};
ghost use Rattle.walrus_walks.specs.Fronts.{FoldsFront};
ghost use Rattle.walrus_walks.specs.Order.{held_by};
ghost use Rattle.walrus_walks.specs.Tree.{IsNested};
ghost use Rattle.walrus_walks.specs.Walk.{body_walk, walk};
ghost use Rattle.walrus_builder.specs.Functions.{seqs_of};

use crate::function::FunctionBuilder;
use std::alloc::{AllocError, Global};
use walrus_arena::InstrSeqId;
use walrus_walks::{Visitor, VisitorMut};

/// Tells the visitor of the start sequence and of all that it holds, in the order of the text, as
/// `walrus_walks::dfs_in_order` does. Asks for a nested start, as `check_nesting` tests.
///
/// # Errors
///
/// Want of memory. The visitor has then been told a first part of that, and nothing else.
pub fn dfs_in_order<V: Visitor>(
    alloc: Global,
    visitor: &mut V,
    body: &FunctionBuilder,
    start: InstrSeqId,
) -> Result<(), AllocError>
    requires { IsNested (seqs_of body.now) start }
    ensures walked { IfOk result (λ _. FoldsTo V.step visitor.old (walk (seqs_of body.now) start) visitor.new) }
    ensures refused { OnErr result (FoldsFront V.step visitor.old (walk (seqs_of body.now) start) visitor.new) }
{
    walrus_walks::dfs_in_order(alloc, visitor, body.seqs(), start)?;
    Ok(())
}

/// Tells the visitor of a body, as `walrus_walks::dfs_body_in_order` does: of its own sequence and of all that it
/// holds, but for what the block type of its own sequence names, which is no reference. Asks for a nested body.
///
/// # Errors
///
/// Want of memory. The visitor has then been told a first part of that, and nothing else.
pub fn dfs_body_in_order<V: Visitor>(
    alloc: Global,
    visitor: &mut V,
    body: &FunctionBuilder,
) -> Result<(), AllocError>
    requires { IsNested (seqs_of body.now) 0 }
    ensures walked { IfOk result (λ _. FoldsTo V.step visitor.old (body_walk (seqs_of body.now) 0) visitor.new) }
    ensures refused { OnErr result (FoldsFront V.step visitor.old (body_walk (seqs_of body.now) 0) visitor.new) }
{
    let own = body.func_body_id();
    walrus_walks::dfs_body_in_order(alloc, visitor, body.seqs(), own)?;
    Ok(())
}

/// Hands the visitor the start sequence and all that it holds, to be changed, as
/// `walrus_walks::dfs_pre_order_mut` does. Asks for a nested start, as `check_nesting` tests.
///
/// # Errors
///
/// Want of memory. The visitor has then been handed the first of those sequences, each whole; all
/// others are as they were. Each sequence still holds what it held.
pub fn dfs_pre_order_mut<V: VisitorMut>(
    alloc: Global,
    visitor: &mut V,
    body: &mut FunctionBuilder,
    start: InstrSeqId,
) -> Result<(), AllocError>
    requires { IsNested (seqs_of body.old) start }
    ensures walked { IfOk result (λ _. Walked V.step visitor.old (seqs_of body.old) start visitor.new (seqs_of body.new)) }
    ensures refused { OnErr result (WalkedPart V.step visitor.old (seqs_of body.old) start visitor.new (seqs_of body.new)) }
    ensures keeps { map held_by (seqs_of body.new) ≡ map held_by (seqs_of body.old) }
    ensures nested { IsNested (seqs_of body.new) start }
    ensures ty { body.new.ty ≡ body.old.ty }
    ensures name { body.new.name ≡ body.old.name }
{
    walrus_walks::dfs_pre_order_mut(alloc, visitor, body.builder.seqs.as_mut_slice(), start)?;
    Ok(())
}

/// Whether each sequence that is reached from the start is known, and none reaches itself.
///
/// # Errors
///
/// Want of memory.
pub fn check_nesting(
    alloc: Global,
    body: &FunctionBuilder,
    start: InstrSeqId,
) -> Result<bool, AllocError>
    ensures { IfOk result (λ nested. MatchBool nested (IsNested (seqs_of body.now) start) (IsNested (seqs_of body.now) start → ⊥)) }
{
    walrus_walks::check_nesting(alloc, body.seqs(), start)
}
