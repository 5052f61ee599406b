//! Adding what bodies name.
ghost use Rattle.std.specs.Prelude.{◌≡◌, ◌++◌, [], OnOk, nat_eq, if◌then◌else◌};
ghost use Rattle.walrus_marks.specs.walrus_walks.Events.{block_names};
ghost use Rattle.walrus_marks.specs.Chains.{IsReached};
ghost use Rattle.walrus_marks.specs.Named.{items_of};
ghost use Rattle.walrus_used.specs.Bodies.{seq_counts};
ghost use Rattle.walrus_used.specs.walrus_references.References.{BodyNames, Holds, IsEntry, KindNames, instr_items, seq_items};
ghost use Rattle.walrus_reasons.specs.Added.{Adds};

use crate::told::add_told;
use std::alloc::{AllocError, Global};
use walrus_instr::{Instr, InstrLocId, InstrSeq};
use walrus_marks::Marks;
use walrus_module::module_items::FunctionKind;
use walrus_roots::Item;
use walrus_used::reached_seqs;
use wasm_formats::Space;

// Adds what these instructions name.
fn add_instrs(named: &mut Vec<Item>, instrs: &[(Instr, InstrLocId)]) -> Result<(), AllocError>
    ensures { OnOk result (named.new.items ≡ named.old.items ++ instr_items instrs.now) }
{
    for entry in instrs {
        add_told(named, &entry.0)?;
    }
    Ok(())
}

// Adds what the type of a sequence names, but for that of the body itself.
fn add_block_type(named: &mut Vec<Item>, index: usize, seq: &InstrSeq) -> Result<(), AllocError>
    ensures { OnOk result (named.new.items ≡ named.old.items ++ (if nat_eq index 0 then [] else items_of (block_names seq.now.ty))) }
{
    if index == 0 {
        return Ok(());
    }
    add_told(named, seq)
}

// Adds what the sequence of this number names.
fn add_seq(named: &mut Vec<Item>, index: usize, seq: &InstrSeq) -> Result<(), AllocError>
    ensures { OnOk result (named.new.items ≡ named.old.items ++ seq_items index seq.now) }
{
    add_block_type(named, index, seq)?;
    let instrs = seq.instrs.as_slice();
    add_instrs(named, instrs)
}

// Adds what the reached sequences name.
fn add_seqs(named: &mut Vec<Item>, seqs: &[InstrSeq], reached: &Marks) -> Result<(), AllocError>
    requires { IsReached (seq_counts seqs.now) IsEntry (Holds seqs.now) reached.now }
    ensures { OnOk result (Adds (BodyNames seqs.now) named.old.items named.new.items) }
{
    for index in 0..seqs.len() {
        if reached.has(Space::Label, index) {
            add_seq(named, index, &seqs[index])?;
        }
    }
    Ok(())
}

// Adds what a body names through each sequence that is reached from its own.
fn add_body(alloc: Global, named: &mut Vec<Item>, seqs: &[InstrSeq]) -> Result<(), AllocError>
    ensures { OnOk result (Adds (BodyNames seqs.now) named.old.items named.new.items) }
{
    let reached = reached_seqs(alloc, seqs)?;
    add_seqs(named, seqs, &reached)
}

/// Adds what a function's body names, if it has one.
///
/// # Errors
///
/// Want of memory.
pub(crate) fn add_kind(
    alloc: Global,
    named: &mut Vec<Item>,
    kind: &FunctionKind,
) -> Result<(), AllocError>
    ensures { OnOk result (Adds (KindNames kind.now) named.old.items named.new.items) }
{
    match kind {
        FunctionKind::Local(local) => add_body(alloc, named, local.builder().seqs()),
        FunctionKind::Import(_) => Ok(()),
        FunctionKind::Uninitialized(_) => Ok(()),
    }
}
