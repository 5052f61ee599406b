//! Instructions as operators.

ghost use Rattle.std.specs.Prelude.{◌≡◌, ℕ, List, map, slice_get, IfOk};
ghost use Rattle.std.specs.declared.alloc.Global.{Global};
ghost use Rattle.std.specs.declared.vec.Vec.{Vec};
ghost use Rattle.walrus_pairing.specs.Looks.{Look};
ghost use Rattle.walrus_pairing.specs.Seen.{as_seen};
ghost use Rattle.walrus_body_writer.specs.Spelled.{block, branch, cast, clause, clauses, opening, type_in, written, written_instr};
ghost use Rattle.walrus_body_text.specs.Doing.{label_by, piece_of};
ghost use Rattle.walrus_body_writer.specs.Numbers.{clauses_in, look_of};
ghost use Rattle.walrus_body_writer.specs.Refusals.{Gives, IsLarge, value_in, value_of};

use crate::numbers::{Numbers, Written, op};
use std::alloc::{AllocError, Global};
use walrus_arena::{InstrSeqId, TypeId};
use walrus_body_text::tree::instr::type_table::{RefType, ValType};
use walrus_body_text::tree::instr::{Instr, InstrSeq, InstrSeqType, TryTableCatch};
use walrus_body_text::{Closer, Depths};
use walrus_pairing::operator_codes::{byte, object};
use walrus_pairing::operators::Immediates;
use walrus_pairing::{PairError, operator_of, write_heap, write_value};
use wasm_operators::{BlockType, Clause};

/// The type of a sequence.
#[inline(always)]
pub(crate) fn type_of(seqs: &[InstrSeq], id: InstrSeqId) -> InstrSeqType
    ensures { result ≡ type_in (slice_get seqs.now id) }
{
    let index = id.index();
    if index >= seqs.len() {
        return InstrSeqType::Simple(None);
    }
    seqs[index].ty.get()
}

// The type of a block that takes nothing.
#[inline(always)]
fn value_block(numbers: &Numbers<'_>, ty: &Option<ValType>) -> Result<BlockType, PairError>
    ensures { Gives (IsLarge (look_of numbers.now) ty.now) (block (look_of numbers.now) (InstrSeqType.Simple ty.now)) result }
{
    match ty {
        None => Ok(BlockType::Empty),
        Some(ty) => {
            let ty = write_value(*ty, numbers.maps)?;
            Ok(BlockType::Value(ty))
        }
    }
}

// The type of a block that is of this function type.
fn function_block(numbers: &Numbers<'_>, ty: TypeId) -> Result<BlockType, PairError>
    ensures { result ≡ block (look_of numbers.now) (InstrSeqType.MultiValue ty) }
{
    let number = numbers.type_number(ty)?;
    Ok(BlockType::Type(number))
}

/// The type of a block.
#[inline(always)]
pub(crate) fn block_type(numbers: &Numbers<'_>, ty: &InstrSeqType) -> Result<BlockType, PairError>
    ensures { Gives (IsLarge (look_of numbers.now) (value_of ty.now)) (block (look_of numbers.now) ty.now) result }
{
    match ty {
        InstrSeqType::Simple(ty) => value_block(numbers, ty),
        InstrSeqType::MultiValue(id) => function_block(numbers, *id),
    }
}

fn opening(numbers: &Numbers<'_>, seqs: &[InstrSeq], code: u32, id: InstrSeqId) -> Written
    ensures { Gives (IsLarge (look_of numbers.now) (value_of (type_in (slice_get seqs.now id)))) (opening (look_of numbers.now) seqs.now code id) (as_seen result) }
{
    let ty = block_type(numbers, &type_of(seqs, id))?;
    op(byte(code), Immediates::Block(ty))
}

fn branch(depths: &Depths, code: u32, id: InstrSeqId) -> Written
    ensures { as_seen result ≡ branch code (label_by depths.now.depths.items depths.now.height) id }
{
    op(byte(code), Immediates::Label(depths.label(id)))
}

fn cast(
    numbers: &Numbers<'_>,
    depths: &Depths,
    code: u32,
    id: InstrSeqId,
    from: RefType,
    to: RefType,
) -> Written
    ensures { as_seen result ≡ cast (look_of numbers.now) code (label_by depths.now.depths.items depths.now.height) id from to }
{
    let flags = match (from.nullable, to.nullable) {
        (false, false) => 0,
        (true, false) => 1,
        (false, true) => 2,
        (true, true) => 3,
    };
    let source = write_heap(from.heap_type, numbers.maps)?;
    let target = write_heap(to.heap_type, numbers.maps)?;
    op(
        object(code),
        Immediates::Cast(flags, depths.label(id), source, target),
    )
}

fn clause_of(
    numbers: &Numbers<'_>,
    depths: &Depths,
    part: TryTableCatch,
) -> Result<Clause, PairError>
    ensures { result ≡ clause (look_of numbers.now) (label_by depths.now.depths.items depths.now.height) part }
{
    match part {
        TryTableCatch::Catch { tag, label } => {
            let tag = numbers.tag_number(tag)?;
            let label = depths.label(label);
            Ok(Clause::Catch { tag, label })
        }
        TryTableCatch::CatchRef { tag, label } => {
            let tag = numbers.tag_number(tag)?;
            let label = depths.label(label);
            Ok(Clause::CatchRef { tag, label })
        }
        TryTableCatch::CatchAll { label } => {
            let label = depths.label(label);
            Ok(Clause::CatchAll { label })
        }
        TryTableCatch::CatchAllRef { label } => {
            let label = depths.label(label);
            Ok(Clause::CatchAllRef { label })
        }
    }
}

fn clauses_of(
    alloc: Global,
    numbers: &Numbers<'_>,
    depths: &Depths,
    parts: &[TryTableCatch],
) -> Result<Vec<Clause>, PairError>
    ensures { Gives ⊥ (clauses (look_of numbers.now) (label_by depths.now.depths.items depths.now.height) parts.now) (clauses_in result) }
{
    let mut clauses = Vec::new(alloc);
    for part in parts {
        let clause = clause_of(numbers, depths, *part)?;
        clauses.extend_from_slice(&[clause])?;
    }
    Ok(clauses)
}

fn labels_of(alloc: Global, depths: &Depths, ids: &[InstrSeqId]) -> Result<Vec<u32>, AllocError>
    ensures { IfOk result (λ labels. labels.items ≡ map (label_by depths.now.depths.items depths.now.height) ids.now) }
{
    let mut labels = Vec::new(alloc);
    for id in ids {
        labels.push(depths.label(*id))?;
    }
    Ok(labels)
}

fn try_table(
    alloc: Global,
    numbers: &Numbers<'_>,
    seqs: &[InstrSeq],
    depths: &Depths,
    id: InstrSeqId,
    parts: &[TryTableCatch],
) -> Written
    ensures { (k : Vec TryTableCatch Global) → k.items ≡ parts.now →
        Gives (IsLarge (look_of numbers.now) (value_of (type_in (slice_get seqs.now id)))) (written_instr (look_of numbers.now) seqs.now (label_by depths.now.depths.items depths.now.height) (Instr.TryTable id k)) (as_seen result) }
{
    let ty = block_type(numbers, &type_of(seqs, id))?;
    let clauses = clauses_of(alloc, numbers, depths, parts)?;
    op(byte(0x1f), Immediates::TryTable(ty, clauses))
}

fn br_table(alloc: Global, depths: &Depths, ids: &[InstrSeqId], other: InstrSeqId) -> Written
    ensures { (look : Look) (b : List InstrSeq) (k : Vec ℕ Global) → k.items ≡ ids.now →
        Gives ⊥ (written_instr look b (label_by depths.now.depths.items depths.now.height) (Instr.BrTable other k)) (as_seen result) }
{
    let labels = labels_of(alloc, depths, ids)?;
    let other = depths.label(other);
    op(byte(0x0e), Immediates::BrTable(labels, other))
}

/// The operator of an instruction, where these sequences are open.
///
/// # Errors
///
/// What it names has no number, or one that is too great; or want of memory.
pub(crate) fn written_of(
    alloc: Global,
    numbers: &Numbers<'_>,
    seqs: &[InstrSeq],
    depths: &Depths,
    instr: &Instr,
) -> Written
    ensures { Gives (IsLarge (look_of numbers.now) (value_in seqs.now instr.now)) (written_instr (look_of numbers.now) seqs.now (label_by depths.now.depths.items depths.now.height) instr.now) (as_seen result) }
{
    match instr {
        Instr::Block { seq } => opening(numbers, seqs, 0x02, *seq),
        Instr::Loop { seq } => opening(numbers, seqs, 0x03, *seq),
        Instr::IfElse { consequent, .. } => opening(numbers, seqs, 0x04, *consequent),
        Instr::Try { seq, .. } => opening(numbers, seqs, 0x06, *seq),
        Instr::TryTable { seq, catches } => {
            try_table(alloc, numbers, seqs, depths, *seq, catches.as_slice())
        }
        Instr::Br { block } => branch(depths, 0x0c, *block),
        Instr::BrIf { block } => branch(depths, 0x0d, *block),
        Instr::BrTable { blocks, default } => {
            br_table(alloc, depths, blocks.as_slice(), *default)
        }
        Instr::BrOnNull { block } => branch(depths, 0xd5, *block),
        Instr::BrOnNonNull { block } => branch(depths, 0xd6, *block),
        Instr::BrOnCast {
            block,
            from_ty,
            to_ty,
        } => cast(numbers, depths, 24, *block, *from_ty, *to_ty),
        Instr::BrOnCastFail {
            block,
            from_ty,
            to_ty,
        } => cast(numbers, depths, 25, *block, *from_ty, *to_ty),
        Instr::Rethrow { relative_depth } => op(byte(0x09), Immediates::Label(*relative_depth)),
        _ => operator_of(alloc, instr, numbers.function, numbers.maps),
    }
}

/// The operator that stands behind a sequence.
///
/// # Errors
///
/// A tag has no number.
pub(crate) fn closer_of(numbers: &Numbers<'_>, closer: Closer) -> Written
    ensures { (b : List InstrSeq) → as_seen result ≡ written (look_of numbers.now) b (piece_of closer) }
{
    match closer {
        Closer::Else => op(byte(0x05), Immediates::Bare),
        Closer::Catch(tag) => {
            let tag = numbers.tag_number(tag)?;
            op(byte(0x07), Immediates::Tag(tag))
        }
        Closer::CatchAll => op(byte(0x19), Immediates::Bare),
        Closer::Delegate(depth) => op(byte(0x18), Immediates::Label(depth)),
        Closer::End => op(byte(0x0b), Immediates::Bare),
    }
}
