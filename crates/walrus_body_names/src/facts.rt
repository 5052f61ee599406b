//! What is known of a body before it is written.

ghost use Rattle.std.specs.Prelude.{◌≡◌, ◌++◌, ◌∷◌, [], ◌||◌, false, slice_get, Contains, IfErr, IfOk, OnErr, OnOk};
ghost use Rattle.std.specs.Bool.{OnTrue};
ghost use Rattle.walrus_body_writer.specs.walrus_tree.walrus_builder.Functions.{seqs_of};
ghost use Rattle.walrus_body_writer.specs.walrus_tree.Text.{operators};
ghost use Rattle.walrus_body_writer.specs.walrus_tree.Trees.{IsTree};
ghost use Rattle.walrus_body_writer.specs.walrus_body_text.Walking.{IsCause};
ghost use Rattle.walrus_body_writer.specs.walrus_body_text.Visiting.{text_size};
ghost use Rattle.walrus_body_names.specs.Names.{AreSet, HaveSame, are_constants, function_in, has_any, is_constant, local_in, segment_in, text_names};

use crate::distinct::distinct;
use crate::names::{local_of, local_or, named_segments, names_function, names_segment};
use std::alloc::{AllocError, Global};
use walrus_arena::{DataId, FunctionId, LocalId};
use walrus_body_writer::body_env::BodyError;
use walrus_body_writer::builder::FunctionBuilder;
use walrus_body_writer::{Closer, TextVisitor, visit_once};
use walrus_instr::{Instr, InstrLocId};

/// What is known of a body before it is written.
#[derive(Drop)]
pub struct FunctionFacts {
    /// Its size: the number of its operators other than `else`, `end`, `catch`, `catch_all` and `delegate`.
    pub size: u64,
    /// Whether it names a data segment.
    pub uses_data_segments: bool,
    /// The locals that it names, each once, by rising id.
    pub used_locals: Vec<LocalId>,
    /// The functions to which it refers by `ref.func`, one for each time, in the order of its operators.
    pub referred: Vec<FunctionId>,
}

// How many hints are kept at first. As many again come where locals have no room among them.
const HINTS: usize = 512;

// Where the hint of a local is, among so many, a power of two.
fn slot_of(id: LocalId, count: usize) -> usize {
    id.index() & count.wrapping_sub(1)
}

// Counts operators and gathers what they name.
#[derive(Drop)]
struct Facts {
    size: u64,
    names_segment: bool,
    // Each local at least once. Those that hints show to be there aren't put there again, so that few are left to sort.
    found: Vec<LocalId>,
    // By a local's number, a place where it may have been found: what is there tells whether it was.
    hints: Vec<u32>,
    // The local that was put there last, if there is one. Where an instruction names none, the hint of this one is tested.
    last: LocalId,
    // The functions to which instructions refer.
    referred: Vec<FunctionId>,
}

// Whether a hint shows that the local is among these.
#[inline(always)]
fn is_there(found: &[LocalId], hints: &[u32], id: LocalId) -> bool
    ensures { OnTrue result (Contains found.now id) }
{
    let slot = slot_of(id, hints.len());
    if slot >= hints.len() {
        return false;
    }
    let at = hints[slot] as usize;
    if at >= found.len() {
        return false;
    }
    if found[at].index() == id.index() {
        return true;
    }
    false
}

// Puts the local behind those that were found.
fn add(found: &mut Vec<LocalId>, hints: &mut Vec<u32>, id: LocalId) -> Result<(), AllocError>
    ensures told { OnOk result (HaveSame found.new.items (found.old.items ++ id ∷ [])) }
    ensures refused { OnErr result (found.new.items ≡ found.old.items) }
{
    let at = found.len();
    if at >= hints.len() {
        hints.resize(hints.len().saturating_mul(2), 0)?;
    }
    found.push(id)?;
    let Ok(hint) = u32::try_from(at) else {
        return Ok(());
    };
    let slot = slot_of(id, hints.len());
    if slot < hints.len() {
        hints[slot] = hint;
    }
    Ok(())
}

// The same, if no hint shows that it is among them.
fn gather(found: &mut Vec<LocalId>, hints: &mut Vec<u32>, id: LocalId) -> Result<(), AllocError>
    ensures told { OnOk result (HaveSame found.new.items (found.old.items ++ id ∷ [])) }
    ensures refused { OnErr result (found.new.items ≡ found.old.items) }
{
    if is_there(found.as_slice(), hints.as_slice(), id) {
        return Ok(());
    }
    add(found, hints, id)
}

// Gathers the local that an instruction names, if it names one.
fn gather_named(
    found: &mut Vec<LocalId>,
    hints: &mut Vec<u32>,
    instr: &Instr,
) -> Result<(), AllocError>
    ensures told { OnOk result (HaveSame found.new.items (found.old.items ++ local_in instr.now)) }
    ensures refused { OnErr result (found.new.items ≡ found.old.items) }
{
    match local_of(instr) {
        Some(id) => gather(found, hints, id),
        None => Ok(()),
    }
}

// Whether nothing is to be done for an instruction: it names no data segment and refers to no function, and a hint shows its local, if it
// names one. Else the local found last is looked for in its place, so that no jump depends on whether it names one.
#[inline(always)]
#[tactic(auto, using(crate::proofs::Same::told_if))]
fn is_told(found: &[LocalId], hints: &[u32], last: &LocalId, instr: &Instr) -> bool
    ensures unmarked { OnTrue result (has_any (segment_in instr.now) ≡ false) }
    ensures told { OnTrue result (HaveSame found.now (found.now ++ local_in instr.now)) }
    ensures alone { OnTrue result (has_any (function_in instr.now) ≡ false) }
{
    if !is_there(found, hints, *local_or(instr, last)) {
        return false;
    }
    if names_segment(instr) {
        return false;
    }
    if names_function(instr) {
        return false;
    }
    true
}

// The last, or else this one.
fn last_or(found: &[LocalId], other: LocalId) -> LocalId {
    match found.last() {
        Some(last) => *last,
        None => other,
    }
}

// Gathers what an instruction names. It isn't inlined, as mostly there is nothing to do.
#[inline(never)]
fn gather_all(facts: &mut Facts, instr: &Instr) -> Result<(), AllocError>
    ensures counted { facts.new.size ≡ facts.old.size }
    ensures marked { OnOk result (facts.new.names_segment ≡ (facts.old.names_segment || has_any (segment_in instr.now))) }
    ensures told { OnOk result (HaveSame facts.new.found.items (facts.old.found.items ++ local_in instr.now)) }
    ensures referred { OnOk result (facts.new.referred.items ≡ facts.old.referred.items ++ function_in instr.now) }
    ensures unmarked { OnErr result (facts.new.names_segment ≡ facts.old.names_segment) }
    ensures refused { OnErr result (facts.new.found.items ≡ facts.old.found.items) }
    ensures alone { OnErr result (facts.new.referred.items ≡ facts.old.referred.items) }
{
    if let Instr::RefFunc { func } = instr {
        facts.referred.push(*func)?;
        return Ok(());
    }
    gather_named(&mut facts.found, &mut facts.hints, instr)?;
    facts.names_segment = facts.names_segment || names_segment(instr);
    facts.last = last_or(facts.found.as_slice(), facts.last);
    Ok(())
}

// The same, most often straight.
#[inline(always)]
#[tactic(auto, using(crate::proofs::Gathering::or_none, crate::proofs::Gathering::nothing_named))]
fn note(facts: &mut Facts, instr: &Instr) -> Result<(), AllocError>
    ensures counted { facts.new.size ≡ facts.old.size }
    ensures marked { OnOk result (facts.new.names_segment ≡ (facts.old.names_segment || has_any (segment_in instr.now))) }
    ensures told { OnOk result (HaveSame facts.new.found.items (facts.old.found.items ++ local_in instr.now)) }
    ensures referred { OnOk result (facts.new.referred.items ≡ facts.old.referred.items ++ function_in instr.now) }
    ensures unmarked { OnErr result (facts.new.names_segment ≡ facts.old.names_segment) }
    ensures refused { OnErr result (facts.new.found.items ≡ facts.old.found.items) }
    ensures alone { OnErr result (facts.new.referred.items ≡ facts.old.referred.items) }
{
    if is_told(
        facts.found.as_slice(),
        facts.hints.as_slice(),
        &facts.last,
        instr,
    ) {
        return Ok(());
    }
    gather_all(facts, instr)
}

impl TextVisitor for Facts {
    ghost use Rattle.walrus_body_names.specs.Facts.{IsAsBefore, IsTold};

    ghost step = { λ old piece new. IsTold old piece.0 new };

    ghost same = { λ old new. IsAsBefore old new };

    #[inline(always)]
    fn instr(&mut self, instr: &Instr, _place: InstrLocId) -> Result<(), AllocError> {
        let Some(size) = self.size.checked_add(1) else {
            return Err(AllocError);
        };
        note(self, instr)?;
        self.size = size;
        Ok(())
    }

    fn end(&mut self, _closer: Closer, _place: InstrLocId) -> Result<(), AllocError> {
        Ok(())
    }
}

/// The size of a body, whether it names a data segment, the locals that it names, and the functions to which it refers.
///
/// # Errors
///
/// `NoTree` exactly where the sequences that the body's own reaches form no tree in which each label names a sequence around it; else
/// want of memory alone.
pub fn emit_facts(alloc: Global, body: &FunctionBuilder) -> Result<FunctionFacts, BodyError>
    ensures tree { OnOk result (IsTree (seqs_of body.now) 0) }
    ensures size { IfOk result (λ facts. facts.size ≡ text_size (operators (seqs_of body.now) 0)) }
    ensures segments { IfOk result (λ facts. facts.uses_data_segments ≡ has_any (text_names segment_in (operators (seqs_of body.now) 0))) }
    ensures locals { IfOk result (λ facts. AreSet (text_names local_in (operators (seqs_of body.now) 0)) facts.used_locals.items) }
    ensures referred { IfOk result (λ facts. facts.referred.items ≡ text_names function_in (operators (seqs_of body.now) 0)) }
    ensures refused { IfErr result (IsCause (seqs_of body.now)) }
{
    let hints = vec![in alloc; 0; HINTS]?;
    let mut facts = Facts {
        size: 0,
        names_segment: false,
        found: Vec::new(alloc),
        hints,
        last: LocalId::from_index(0),
        referred: Vec::new(alloc),
    };
    visit_once(alloc, &mut facts, body)?;
    let Facts {
        size,
        names_segment: uses_data_segments,
        found,
        referred,
        ..
    } = facts;
    let used_locals = distinct(found)?;
    Ok(FunctionFacts {
        size,
        uses_data_segments,
        used_locals,
        referred,
    })
}

/// The data segments that a body names, each once, by rising id.
///
/// # Errors
///
/// `NoTree` exactly where the sequences that the body's own reaches form no tree in which each label names a sequence around it; else
/// want of memory alone.
pub fn used_data_segments(alloc: Global, body: &FunctionBuilder) -> Result<Vec<DataId>, BodyError>
    ensures tree { OnOk result (IsTree (seqs_of body.now) 0) }
    ensures named { IfOk result (λ ids. AreSet (text_names segment_in (operators (seqs_of body.now) 0)) ids.items) }
    ensures refused { IfErr result (IsCause (seqs_of body.now)) }
{
    let named = named_segments(alloc, body)?;
    let used = distinct(named)?;
    Ok(used)
}

fn is_constant(instr: &Instr) -> bool
    ensures { result ≡ is_constant instr.now }
{
    matches!(instr, Instr::Const { .. })
}

/// Whether each instruction of the body's own sequence is a constant.
pub fn is_const(body: &FunctionBuilder) -> bool
    ensures { result ≡ are_constants (slice_get (seqs_of body.now) 0) }
{
    let Some(seq) = body.seqs().first() else {
        return true;
    };
    for (instr, _) in seq.instrs.as_slice() {
        if !is_constant(instr) {
            return false;
        }
    }
    true
}
