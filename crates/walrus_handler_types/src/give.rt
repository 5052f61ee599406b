//! Handlers are given their types.

ghost use Rattle.std.specs.Prelude.{◌≡◌, ◌<◌, ℕ, IfOk, OnErr, OnOk, Some, is_some, length, take};
ghost use Rattle.std.specs.List.{AllByRecursion, list_any};
ghost use Rattle.walrus_handler_types.specs.Giving.{Finds, FindsIf, Gives, GivesAt, GivesType};
ghost use Rattle.walrus_handlers.specs.Gathering.{listed};
ghost use Rattle.walrus_handlers.specs.walrus_handler_laws.Handlers.{tree_ids};
ghost use Rattle.walrus_handlers.specs.walrus_tree.Trees.{IsTree};
ghost use Rattle.walrus_handlers.specs.walrus_tree.walrus_builder.Built.{contents};
ghost use Rattle.walrus_handlers.specs.walrus_tree.walrus_builder.Functions.{seqs_of};

use crate::lists::{block_results, caught};
use crate::order::tree_order;
use std::alloc::{AllocError, Global};
use walrus_arena::InstrSeqId;
use walrus_forms::{AbstractHeapType, HeapType, RefType};
use walrus_handlers::Handler;
use walrus_handlers::tree::builder::FunctionBuilder;
use walrus_handlers::tree::builder::tree_walks::instr::InstrSeqType;
use walrus_handlers::tree::builder::tree_walks::instr::type_table::{ModuleTypes, ValType};
use walrus_instr::SeqType;

// The block type of these parameters and results that is there, or else one that is added.
fn found_or_added(
    types: &mut ModuleTypes,
    params: &[ValType],
    results: &[ValType],
) -> Result<InstrSeqType, AllocError>
    ensures found { IfOk result (λ ty. Finds params.now results.now types.old ty types.new) }
    ensures refused { OnErr result (types.new ≡ types.old) }
{
    match InstrSeqType::existing(types, params, results) {
        Some(ty) => Ok(ty),
        None => InstrSeqType::new(types, params, results),
    }
}

// The type of a handler's sequence that had this type.
fn handler_type(
    alloc: Global,
    types: &mut ModuleTypes,
    handler: Handler,
    was: SeqType,
) -> Result<InstrSeqType, AllocError>
    ensures given { IfOk result (λ ty. GivesType handler was types.old ty types.new) }
    ensures refused { OnErr result (types.new ≡ types.old) }
{
    let Some(params) = caught(alloc, types, handler.tag_type)? else {
        return Ok(was.get());
    };
    let Some(results) = block_results(alloc, types, handler.block)? else {
        return Ok(was.get());
    };
    found_or_added(types, params.as_slice(), results.as_slice())
}

// Gives a handler's sequence its type.
fn give_handler(
    alloc: Global,
    handler: Handler,
    types: &mut ModuleTypes,
    body: &mut FunctionBuilder,
    id: InstrSeqId,
) -> Result<(), AllocError>
    requires { id < length (seqs_of body.old) }
    ensures given { OnOk result (GivesAt id (Some handler) (contents body.old.builder) types.old (contents body.new.builder) types.new) }
    ensures kept { OnErr result (body.new ≡ body.old) }
    ensures refused { OnErr result (types.new ≡ types.old) }
    ensures ty { body.new.ty ≡ body.old.ty }
    ensures name { body.new.name ≡ body.old.name }
    ensures many { length (seqs_of body.new) ≡ length (seqs_of body.old) }
{
    // The toolchain is told of these types so, which a block type may hold.
    let _held: Option<(AbstractHeapType, HeapType, RefType, ValType)> = None;
    let was = body.seqs()[id.index()].ty;
    let ty = handler_type(alloc, types, handler, was)?;
    let given = SeqType::new(ty);
    let seq = body.seq_mut(id);
    seq.ty = given;
    Ok(())
}

// Gives a sequence its type, if it is a handler.
fn give_type(
    alloc: Global,
    handler: Option<Handler>,
    types: &mut ModuleTypes,
    body: &mut FunctionBuilder,
    id: InstrSeqId,
) -> Result<(), AllocError>
    requires { id < length (seqs_of body.old) }
    ensures given { OnOk result (GivesAt id handler (contents body.old.builder) types.old (contents body.new.builder) types.new) }
    ensures kept { OnErr result (body.new ≡ body.old) }
    ensures refused { OnErr result (types.new ≡ types.old) }
    ensures ty { body.new.ty ≡ body.old.ty }
    ensures name { body.new.name ≡ body.old.name }
    ensures many { length (seqs_of body.new) ≡ length (seqs_of body.old) }
{
    match handler {
        Some(handler) => give_handler(alloc, handler, types, body, id),
        None => Ok(()),
    }
}

// The handler that a sequence is, if it is one, by a list of them.
fn listed(handlers: &[Option<Handler>], id: InstrSeqId) -> Option<Handler>
    ensures { result ≡ listed handlers.now id }
{
    match handlers.get(id.index()) {
        Some(handler) => *handler,
        None => None,
    }
}

// Gives these sequences their types, one behind the other.
fn give_each(
    alloc: Global,
    handlers: &[Option<Handler>],
    types: &mut ModuleTypes,
    body: &mut FunctionBuilder,
    order: &[InstrSeqId],
) -> Result<(), AllocError>
    requires { AllByRecursion (λ id. id < length (seqs_of body.old)) order.now }
    ensures given { OnOk result (Gives (listed handlers.now) order.now (contents body.old.builder) types.old (contents body.new.builder) types.new) }
    ensures refused { OnErr result ((n : ℕ) × Gives (listed handlers.now) (take n order.now) (contents body.old.builder) types.old (contents body.new.builder) types.new) }
    ensures ty { body.new.ty ≡ body.old.ty }
    ensures name { body.new.name ≡ body.old.name }
    ensures many { length (seqs_of body.new) ≡ length (seqs_of body.old) }
{
    for id in order {
        give_type(alloc, listed(handlers, *id), types, body, *id)?;
    }
    Ok(())
}

// Whether one of these is a handler.
fn has_handler(handlers: &[Option<Handler>]) -> bool
    ensures { result ≡ list_any is_some handlers.now }
{
    handlers.iter().any(|handler| handler.is_some())
}

/// Gives each sequence of a body that is a handler its type: from the parameters of its tag, or from none, to the results of its block. That
/// is the short block type where there is one, else that of the latest final function type without supertype of just these lists, else that
/// of one that is added behind all others. So what is added stands in the order in which the text has the handlers. Where there are no such
/// lists, as the tag or the block has no live function type, a sequence keeps its type. `handlers` is by sequence. Asks for a body that forms
/// a tree. Looks at its instructions only where there is a handler.
///
/// # Errors
///
/// Want of memory. The first sequences of the text have been given their types then, and no others.
pub fn give_types(
    alloc: Global,
    handlers: &[Option<Handler>],
    types: &mut ModuleTypes,
    body: &mut FunctionBuilder,
) -> Result<(), AllocError>
    requires { IsTree (seqs_of body.old) 0 }
    ensures given { OnOk result ((t : IsTree (seqs_of body.old) 0) → Gives (listed handlers.now) (tree_ids t) (contents body.old.builder) types.old (contents body.new.builder) types.new) }
    ensures refused { OnErr result ((t : IsTree (seqs_of body.old) 0) → (n : ℕ) × Gives (listed handlers.now) (take n (tree_ids t)) (contents body.old.builder) types.old (contents body.new.builder) types.new) }
    ensures ty { body.new.ty ≡ body.old.ty }
    ensures name { body.new.name ≡ body.old.name }
    ensures many { length (seqs_of body.new) ≡ length (seqs_of body.old) }
{
    if !has_handler(handlers) {
        return Ok(());
    }
    let order = tree_order(alloc, body.seqs())?;
    give_each(alloc, handlers, types, body, order.as_slice())
}
