//! Which sequences were entered, and how deep the open ones lie.

ghost use Rattle.std.specs.Prelude.{◌≡◌, ◌+◌, ◌-◌, length, replicate, slice_set, IfOk, OnOk};
ghost use Rattle.std.specs.Bool.{OnTrue};
ghost use Rattle.walrus_tree.specs.declared.marks.Mark.TheVariants.{Fresh, Open, Done};
ghost use Rattle.walrus_tree.specs.Testing.{open_at, within};
ghost use Rattle.walrus_body_text.specs.Doing.{label_by};
ghost use Rattle.walrus_body_text.specs.Tested.{may_enter, names_labels};

use std::alloc::{AllocError, Global};
use walrus_arena::InstrSeqId;
use walrus_tree::instr::Instr;
use walrus_tree::marks::{Mark, is_within};

/// How many sequences are around each open one, by id, how far each was tested, and how many are open.
#[derive(Drop)]
pub struct Depths {
    /// How many sequences are around each open one, by id.
    pub depths: Vec<u32>,
    /// How far each sequence was tested, by id.
    pub marks: Vec<Mark>,
    /// How many sequences are open.
    pub height: u32,
}

// Whether the sequence is known, and wasn't entered.
fn may_enter(marks: &[Mark], id: InstrSeqId) -> bool
    ensures { result ≡ may_enter marks.now id }
{
    let index = id.index();
    if index >= marks.len() {
        return false;
    }
    match marks[index] {
        Mark::Fresh => true,
        Mark::Open => false,
        Mark::Done => false,
    }
}

fn set_mark(marks: &mut [Mark], id: InstrSeqId, mark: Mark)
    ensures { marks.new ≡ slice_set marks.old id mark }
{
    let index = id.index();
    if index < marks.len() {
        marks[index] = mark;
    }
}

fn set_depth(depths: &mut [u32], id: InstrSeqId, depth: u32)
    ensures { depths.new ≡ slice_set depths.old id depth }
{
    let index = id.index();
    if index < depths.len() {
        depths[index] = depth;
    }
}

// Whether the sequence is open.
#[inline(always)]
fn is_open(marks: &[Mark], id: InstrSeqId) -> bool
    ensures { result ≡ open_at marks.now id }
{
    let index = id.index();
    if index >= marks.len() {
        return false;
    }
    matches!(marks[index], Mark::Open)
}

// Whether each label of the instruction names a sequence that is open, of which there are so many. Branches are tested here.
#[inline(always)]
fn is_within_here(instr: &Instr, marks: &[Mark], depth: usize) -> bool
    ensures { result ≡ within marks.now depth instr.now }
{
    match instr {
        Instr::Br { block } => is_open(marks, *block),
        Instr::BrIf { block } => is_open(marks, *block),
        _ => is_within(instr, marks, depth),
    }
}

#[inline(always)]
fn names_labels(instr: &Instr) -> bool
    ensures { result ≡ names_labels instr.now }
{
    matches!(
        instr,
        Instr::Br { .. }
            | Instr::BrIf { .. }
            | Instr::BrTable { .. }
            | Instr::BrOnNull { .. }
            | Instr::BrOnNonNull { .. }
            | Instr::BrOnCast { .. }
            | Instr::BrOnCastFail { .. }
            | Instr::Rethrow { .. }
            | Instr::Try { .. }
            | Instr::TryTable { .. }
    )
}

impl Depths {
    /// None of so many sequences was entered.
    ///
    /// # Errors
    ///
    /// Want of memory.
    pub fn new(alloc: Global, count: usize) -> Result<Self, AllocError>
        ensures sized { IfOk result (λ new. length new.depths.items ≡ count) }
        ensures fresh { IfOk result (λ new. new.marks.items ≡ replicate count Fresh) }
        ensures height { IfOk result (λ new. new.height ≡ 0) }
    {
        let depths = vec![in alloc; 0; count]?;
        let marks = vec![in alloc; Mark::Fresh; count]?;
        Ok(Depths {
            depths,
            marks,
            height: 0,
        })
    }

    /// Begins a sequence inside those that are open; false where it is unknown, or was entered before. Refused where the count of those
    /// has no number of 32 bits.
    pub(crate) fn enter(&mut self, id: InstrSeqId) -> Result<bool, AllocError>
        ensures tested { IfOk result (λ fresh. fresh ≡ may_enter self.old.marks.items id) }
        ensures marks { IfOk result (λ fresh. OnTrue fresh (self.new.marks.items ≡ slice_set self.old.marks.items id Open)) }
        ensures depths { IfOk result (λ fresh. OnTrue fresh (self.new.depths.items ≡ slice_set self.old.depths.items id self.old.height)) }
        ensures height { IfOk result (λ fresh. OnTrue fresh (self.new.height ≡ self.old.height + 1)) }
    {
        if !may_enter(self.marks.as_slice(), id) {
            return Ok(false);
        }
        let Some(height) = self.height.checked_add(1) else {
            return Err(AllocError);
        };
        set_mark(self.marks.as_mut_slice(), id, Mark::Open);
        set_depth(self.depths.as_mut_slice(), id, self.height);
        self.height = height;
        Ok(true)
    }

    /// Ends the innermost sequence, which is this one.
    pub(crate) fn leave(&mut self, id: InstrSeqId)
        ensures marks { self.new.marks.items ≡ slice_set self.old.marks.items id Done }
        ensures depths { self.new.depths ≡ self.old.depths }
        ensures height { self.new.height ≡ self.old.height - 1 }
    {
        set_mark(self.marks.as_mut_slice(), id, Mark::Done);
        self.height = self.height.saturating_sub(1);
    }

    /// Whether each label of the instruction names a sequence that is open.
    #[inline(always)]
    #[tactic(auto, using(crate::proofs::Tests::none_named))]
    pub(crate) fn is_within(&self, instr: &Instr) -> bool
        ensures { result ≡ within self.now.marks.items self.now.height instr.now }
    {
        if !names_labels(instr) {
            return true;
        }
        is_within_here(instr, self.marks.as_slice(), self.height as usize)
    }

    /// The number of a label: how many sequences lie between it and here. Takes no more time where more are open.
    pub fn label(&self, id: InstrSeqId) -> u32
        ensures { result ≡ label_by self.now.depths.items self.now.height id }
    {
        let index = id.index();
        if index >= self.depths.len() {
            return self.height.saturating_sub(1);
        }
        self.height
            .saturating_sub(self.depths[index])
            .saturating_sub(1)
    }
}
