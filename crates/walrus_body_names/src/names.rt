//! What the operators of a body name.

ghost use Rattle.std.specs.Prelude.{◌≡◌, ◌∷◌, [], true, IfOk, IfErr, OnOk};
ghost use Rattle.std.specs.Bool.{OnTrue};
ghost use Rattle.std.specs.Option.{option_to_list};
ghost use Rattle.walrus_body_writer.specs.walrus_tree.walrus_builder.Functions.{seqs_of};
ghost use Rattle.walrus_body_writer.specs.walrus_tree.Text.{operators};
ghost use Rattle.walrus_body_writer.specs.walrus_tree.Trees.{IsTree};
ghost use Rattle.walrus_body_writer.specs.walrus_body_text.Walking.{IsCause};
ghost use Rattle.walrus_body_names.specs.Names.{function_in, has_any, local_in, segment_in, text_names};

use std::alloc::{AllocError, Global};
use walrus_arena::{DataId, LocalId};
use walrus_body_writer::body_env::BodyError;
use walrus_body_writer::builder::FunctionBuilder;
use walrus_body_writer::{Closer, TextVisitor, visit_once};
use walrus_instr::{Instr, InstrLocId};

#[inline(always)]
pub(crate) fn segment_of(instr: &Instr) -> Option<DataId>
    ensures { option_to_list result ≡ segment_in instr.now }
{
    match instr {
        Instr::MemoryInit { data, .. } => Some(*data),
        Instr::DataDrop { data } => Some(*data),
        Instr::ArrayNewData { data, .. } => Some(*data),
        Instr::ArrayInitData { data, .. } => Some(*data),
        _ => None,
    }
}

#[inline(always)]
pub(crate) fn local_of(instr: &Instr) -> Option<LocalId>
    ensures { option_to_list result ≡ local_in instr.now }
{
    match instr {
        Instr::LocalGet { local } => Some(*local),
        Instr::LocalSet { local } => Some(*local),
        Instr::LocalTee { local } => Some(*local),
        _ => None,
    }
}

// Whether it names a local.
#[inline]
fn names_local(instr: &Instr) -> bool
    ensures { result ≡ has_any (local_in instr.now) }
{
    matches!(
        instr,
        Instr::LocalGet { .. } | Instr::LocalSet { .. } | Instr::LocalTee { .. }
    )
}

// The local that it names.
#[inline]
fn local_at(instr: &Instr) -> &LocalId
    requires { has_any (local_in instr.now) ≡ true }
    ensures { local_in instr.now ≡ result.now ∷ [] }
{
    match instr {
        Instr::LocalGet { local } => local,
        Instr::LocalSet { local } => local,
        Instr::LocalTee { local } => local,
        _ => unreachable!(),
    }
}

/// The local that an instruction names, or else this one. No jump depends on which it is.
#[inline(always)]
pub(crate) fn local_or<'a>(instr: &'a Instr, other: &'a LocalId) -> &'a LocalId
    ensures { OnTrue (has_any (local_in instr.now)) (local_in instr.now ≡ result.now ∷ []) }
{
    if names_local(instr) {
        local_at(instr)
    } else {
        other
    }
}

/// Whether it names a data segment.
#[inline(always)]
pub(crate) fn names_segment(instr: &Instr) -> bool
    ensures { result ≡ has_any (segment_in instr.now) }
{
    matches!(
        instr,
        Instr::MemoryInit { .. }
            | Instr::DataDrop { .. }
            | Instr::ArrayNewData { .. }
            | Instr::ArrayInitData { .. }
    )
}

/// Whether it refers to a function.
#[inline(always)]
pub(crate) fn names_function(instr: &Instr) -> bool
    ensures { result ≡ has_any (function_in instr.now) }
{
    matches!(instr, Instr::RefFunc { .. })
}

// Gathers data segments.
#[derive(Drop)]
struct Segments {
    found: Vec<DataId>,
}

impl TextVisitor for Segments {
    ghost use Rattle.std.specs.Prelude.{◌≡◌, ◌++◌};
    ghost use Rattle.walrus_body_names.specs.Names.{piece_names, segment_in};

    ghost step = { λ old piece new. new.found.items ≡ old.found.items ++ piece_names segment_in piece.0 };

    ghost same = { λ old new. new.found.items ≡ old.found.items };

    fn instr(&mut self, instr: &Instr, _place: InstrLocId) -> Result<(), AllocError> {
        if let Some(id) = segment_of(instr) {
            self.found.push(id)?;
        }
        Ok(())
    }

    fn end(&mut self, _closer: Closer, _place: InstrLocId) -> Result<(), AllocError> {
        Ok(())
    }
}

// Gathers locals.
#[derive(Drop)]
struct Locals {
    found: Vec<LocalId>,
}

impl TextVisitor for Locals {
    ghost use Rattle.std.specs.Prelude.{◌≡◌, ◌++◌};
    ghost use Rattle.walrus_body_names.specs.Names.{local_in, piece_names};

    ghost step = { λ old piece new. new.found.items ≡ old.found.items ++ piece_names local_in piece.0 };

    ghost same = { λ old new. new.found.items ≡ old.found.items };

    fn instr(&mut self, instr: &Instr, _place: InstrLocId) -> Result<(), AllocError> {
        if let Some(id) = local_of(instr) {
            self.found.push(id)?;
        }
        Ok(())
    }

    fn end(&mut self, _closer: Closer, _place: InstrLocId) -> Result<(), AllocError> {
        Ok(())
    }
}

/// The data segments that a body names, one for each time, in the order of its operators.
///
/// # Errors
///
/// `NoTree` exactly where the sequences that the body's own reaches form no tree in which each label names a sequence around it; else
/// want of memory alone.
pub fn named_segments(alloc: Global, body: &FunctionBuilder) -> Result<Vec<DataId>, BodyError>
    ensures tree { OnOk result (IsTree (seqs_of body.now) 0) }
    ensures named { IfOk result (λ ids. ids.items ≡ text_names segment_in (operators (seqs_of body.now) 0)) }
    ensures refused { IfErr result (IsCause (seqs_of body.now)) }
{
    let mut segments = Segments {
        found: Vec::new(alloc),
    };
    visit_once(alloc, &mut segments, body)?;
    let Segments { found } = segments;
    Ok(found)
}

/// The locals that a body names, one for each time, in the order of its operators.
///
/// # Errors
///
/// `NoTree` exactly where the sequences that the body's own reaches form no tree in which each label names a sequence around it; else
/// want of memory alone.
pub fn named_locals(alloc: Global, body: &FunctionBuilder) -> Result<Vec<LocalId>, BodyError>
    ensures tree { OnOk result (IsTree (seqs_of body.now) 0) }
    ensures named { IfOk result (λ ids. ids.items ≡ text_names local_in (operators (seqs_of body.now) 0)) }
    ensures refused { IfErr result (IsCause (seqs_of body.now)) }
{
    let mut locals = Locals {
        found: Vec::new(alloc),
    };
    visit_once(alloc, &mut locals, body)?;
    let Locals { found } = locals;
    Ok(found)
}
