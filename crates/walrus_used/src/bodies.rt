//! Meeting what bodies name.
ghost use Rattle.std.specs.Prelude.{◌≡◌, ◌<◌, [], ◌∷◌, ◌++◌, map, length, IfOk, OnOk, Contains, slice_get, nat_eq, if◌then◌else◌};
ghost use Rattle.std.specs.List.{fold, flat_map};
ghost use Rattle.wasm_formats.specs.declared.fault.Space.TheVariants as spaces;
ghost use Rattle.walrus_marks.specs.walrus_walks.Events.{block_names};
ghost use Rattle.walrus_walks.specs.Tree.{children, handler, handlers};
ghost use Rattle.walrus_roots.specs.Items.{item};
ghost use Rattle.walrus_marks.specs.Marks.{meet};
ghost use Rattle.walrus_marks.specs.Named.{items_of};
ghost use Rattle.walrus_marks.specs.Chains.{IsReached, Meets};
ghost use Rattle.walrus_references.specs.References.{BodyNames, Holds, IsEntry, held, instr_items, seq_items};
ghost use Rattle.walrus_used.specs.Bodies.{seq_counts};

use std::alloc::{AllocError, Global};
use walrus_arena::InstrSeqId;
use walrus_instr::{Instr, InstrLocId, InstrSeq, LegacyCatch};
use walrus_marks::{Marks, Names, reach};
use walrus_roots::Item;
use wasm_formats::Space;

fn meet_seq_id(marks: &mut Marks, id: InstrSeqId)
    ensures { marks.new ≡ meet marks.old (item spaces.Label id) }
{
    marks.meet(Item::new(Space::Label, id));
}

fn meet_handler(marks: &mut Marks, catch: &LegacyCatch)
    ensures { marks.new ≡ fold meet marks.old (map (item spaces.Label) (handler catch.now)) }
{
    match catch {
        LegacyCatch::Catch { handler, .. } => meet_seq_id(marks, *handler),
        LegacyCatch::CatchAll { handler } => meet_seq_id(marks, *handler),
        LegacyCatch::Delegate { .. } => {}
    }
}

fn meet_handlers(marks: &mut Marks, catches: &[LegacyCatch])
    ensures { marks.new ≡ fold meet marks.old (map (item spaces.Label) (handlers catches.now)) }
{
    for catch in catches {
        meet_handler(marks, catch);
    }
}

// Meets the sequences that an instruction holds.
fn meet_children(marks: &mut Marks, instr: &Instr)
    ensures { marks.new ≡ fold meet marks.old (map (item spaces.Label) (children instr.now)) }
{
    match instr {
        Instr::Block { seq } => meet_seq_id(marks, *seq),
        Instr::Loop { seq } => meet_seq_id(marks, *seq),
        Instr::TryTable { seq, .. } => meet_seq_id(marks, *seq),
        Instr::IfElse {
            consequent,
            alternative,
        } => {
            meet_seq_id(marks, *consequent);
            meet_seq_id(marks, *alternative)
        }
        Instr::Try { seq, catches } => {
            meet_seq_id(marks, *seq);
            meet_handlers(marks, catches.as_slice())
        }
        _ => {}
    }
}

// Meets the sequences that these instructions hold.
fn meet_all_children(marks: &mut Marks, instrs: &[(Instr, InstrLocId)])
    ensures { marks.new ≡ fold meet marks.old (flat_map (λ i. map (item spaces.Label) (children i.0)) instrs.now) }
{
    for entry in instrs {
        meet_children(marks, &entry.0);
    }
}

// Meets the sequences that a known sequence holds.
fn meet_held(marks: &mut Marks, seqs: &[InstrSeq], index: usize)
    ensures { marks.new ≡ fold meet marks.old (held (slice_get seqs.now index)) }
{
    if let Some(seq) = seqs.get(index) {
        meet_all_children(marks, seq.instrs.as_slice());
    }
}

// Meets what these instructions name.
fn meet_instrs(marks: &mut Marks, instrs: &[(Instr, InstrLocId)])
    ensures { marks.new ≡ fold meet marks.old (instr_items instrs.now) }
{
    for entry in instrs {
        marks.meet_told(&entry.0);
    }
}

// Meets what the type of a sequence names, but for that of the body itself.
fn meet_block_type(marks: &mut Marks, index: usize, seq: &InstrSeq)
    ensures { marks.new ≡ fold meet marks.old (if nat_eq index 0 then [] else items_of (block_names seq.now.ty)) }
{
    if index != 0 {
        marks.meet_told(seq);
    }
}

// Meets what the sequence of this number names.
fn meet_seq(marks: &mut Marks, index: usize, seq: &InstrSeq)
    ensures { marks.new ≡ fold meet marks.old (seq_items index seq.now) }
{
    meet_block_type(marks, index, seq);
    let instrs = seq.instrs.as_slice();
    meet_instrs(marks, instrs);
}

// The sequences of a body, which name those that they hold.
#[derive(Clone, Copy)]
struct Body<'a> {
    seqs: &'a [InstrSeq],
}

impl<'a> Names for Body<'a> {
    ghost is_root = { λ _ x. IsEntry x };

    ghost refers = { λ b x y. Holds b.seqs.now x y };

    fn meet_roots(&self, marks: &mut Marks) {
        marks.meet(Item {
            space: Space::Label,
            id: 0,
        });
    }

    fn meet_named(&self, item: Item, marks: &mut Marks) -> Result<(), AllocError> {
        if let Space::Label = item.space {
            meet_held(marks, self.seqs, item.id as usize);
        }
        Ok(())
    }
}

/// The sequences that are reached from a body's own.
///
/// # Errors
///
/// Want of memory.
pub fn reached_seqs(alloc: Global, seqs: &[InstrSeq]) -> Result<Marks, AllocError>
    ensures { IfOk result (λ reached. IsReached (seq_counts seqs.now) IsEntry (Holds seqs.now) reached) }
{
    let counts = [0, 0, 0, 0, 0, 0, 0, 0, 0, seqs.len()];
    reach(alloc, &Body { seqs }, &counts)
}

// Meets what the reached sequences name.
fn meet_seqs(marks: &mut Marks, seqs: &[InstrSeq], reached: &Marks)
    requires { IsReached (seq_counts seqs.now) IsEntry (Holds seqs.now) reached.now }
    ensures { Meets (BodyNames seqs.now) marks.old marks.new }
{
    for index in 0..seqs.len() {
        if reached.has(Space::Label, index) {
            meet_seq(marks, index, &seqs[index]);
        }
    }
}

/// Meets what a body names through each sequence that is reached from its own.
///
/// # Errors
///
/// Want of memory.
pub(crate) fn meet_body(
    alloc: Global,
    marks: &mut Marks,
    seqs: &[InstrSeq],
) -> Result<(), AllocError>
    ensures { OnOk result (Meets (BodyNames seqs.now) marks.old marks.new) }
{
    let reached = reached_seqs(alloc, seqs)?;
    meet_seqs(marks, seqs, &reached);
    Ok(())
}
