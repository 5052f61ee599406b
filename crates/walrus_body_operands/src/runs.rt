//! Operators that stand in sequences.

ghost use Rattle.std.specs.Prelude.{◌≡◌, ◌^◌, ◌||◌, ◌∷◌, ℕ, List, [], length, nat_lt, true, false, Some};
ghost use Rattle.std.specs.Option.{is_some};
ghost use Rattle.wasm_operators.specs.Items.{Byte, Heap, Labels as LabelSpace, ManyLabels, ManyValues, Memories, Names};
ghost use Rattle.wasm_operators.specs.declared.op_code.OpCode.{OpCode as Code};
ghost use Rattle.wasm_formats.specs.Stops.{Bounds, Position};
ghost use Rattle.walrus_body_steps.specs.wasm_grammar.Values.{first_of, must};
ghost use Rattle.walrus_forms.specs.declared.value.RefType.{RefType as Reference};
ghost use Rattle.walrus_operators.specs.Immediates.{items_of, kind_is};
ghost use Rattle.walrus_operators.specs.Operators.{seen};
ghost use Rattle.walrus_pairing.specs.Plain.{holds_labels};
ghost use Rattle.walrus_pairing.specs.Read.{instr_at};
ghost use Rattle.walrus_body_steps.specs.walrus_body_nesting.Faults.{Answers};
ghost use Rattle.walrus_body_steps.specs.walrus_body_rules.Rules.{has_wide, items_test};
ghost use Rattle.walrus_body_steps.specs.walrus_body_rules.Sights.{Sight, look};
ghost use Rattle.walrus_body_steps.specs.Meanings.{AreLabels, RunsAs, cast_at};
ghost use Rattle.walrus_body_operands.specs.Asked.{AnswersIf, IsPaired, Meets, cast_test, label_test, labelled_at, select_test, tests_of};
ghost use Rattle.walrus_body_operands.specs.Listed.{RunsListed, accessed, holds_list, names_alone, segment_named};

use crate::faults::{fault_of, unsupported};
use crate::labels::{Labels, label};
use crate::scope::Scope;
use crate::types::{check_heap, check_values, heap_type, value_type};
use std::alloc::Global;
use walrus_arena::InstrSeqId;
use walrus_body_env::BodyError;
use walrus_forms::RefType;
use walrus_instr::Instr;
use walrus_operators::{Immediates, Operator};
use walrus_pairing::instr_of;
use wasm_formats::Form;
use wasm_operators::{MemoryAccess, OpCode};
use wasm_ref_types::{HeapType, ValType};

// Of an operator that names this label, which is that of this sequence.
#[inline(always)]
fn labelled(code: OpCode, depth: u32, block: InstrSeqId) -> Option<Instr>
    ensures { result ≡ labelled_at code depth block }
{
    if code.prefix != 0 {
        return None;
    }
    match code.number {
        0x09 => Some(Instr::Rethrow {
            relative_depth: depth,
        }),
        0x0c => Some(Instr::Br { block }),
        0x0d => Some(Instr::BrIf { block }),
        0xd5 => Some(Instr::BrOnNull { block }),
        0xd6 => Some(Instr::BrOnNonNull { block }),
        _ => None,
    }
}

// Of a cast between these types, which branches to this sequence.
fn casting(code: OpCode, block: InstrSeqId, from_ty: RefType, to_ty: RefType) -> Option<Instr>
    ensures { result ≡ cast_at code block from_ty to_ty }
{
    if code.prefix != 0xfb {
        return None;
    }
    match code.number {
        24 => Some(Instr::BrOnCast {
            block,
            from_ty,
            to_ty,
        }),
        25 => Some(Instr::BrOnCastFail {
            block,
            from_ty,
            to_ty,
        }),
        _ => None,
    }
}

#[inline]
fn branch<L: Labels>(code: OpCode, depth: u32, labels: &L, offset: u64) -> Result<Instr, BodyError>
    requires { (k : ℕ) → is_some (labelled_at code depth k) ≡ true }
    ensures { (s : Sight) → Meets result (items_test s (length (L.ids labels.now)) (record { code = code; items = Names LabelSpace depth ∷ [] })) offset (RunsAs s (L.ids labels.now) code (Names LabelSpace depth ∷ [])) }
{
    let block = label(labels, depth, offset)?;
    match labelled(code, depth, block) {
        Some(instr) => Ok(instr),
        None => unreachable!(),
    }
}

// The sequences that labels name.
fn blocks_of<L: Labels>(
    alloc: Global,
    depths: &[u32],
    labels: &L,
    offset: u64,
) -> Result<Vec<InstrSeqId>, BodyError>
    ensures { Answers result (tests_of (label_test (L.ids labels.now)) depths.now) offset (λ blocks. AreLabels (L.ids labels.now) depths.now blocks.items) }
{
    let mut blocks = Vec::new(alloc);
    for depth in depths {
        let block = label(labels, *depth, offset)?;
        blocks.push(block)?;
    }
    Ok(blocks)
}

fn branch_table<L: Labels>(
    alloc: Global,
    depths: &[u32],
    last: u32,
    labels: &L,
    offset: u64,
) -> Result<Instr, BodyError>
    ensures { (s : Sight) (code : Code) → Answers result (first_of (tests_of (label_test (L.ids labels.now)) depths.now) (label_test (L.ids labels.now) last)) offset (RunsAs s (L.ids labels.now) code (ManyLabels depths.now ∷ Names LabelSpace last ∷ [])) }
{
    let blocks = blocks_of(alloc, depths, labels, offset)?;
    let default = label(labels, last, offset)?;
    Ok(Instr::BrTable { blocks, default })
}

// Of an operator that is paired by itself.
#[inline(always)]
fn paired<S: Scope>(scope: &S, op: &Operator, offset: u64) -> Result<Instr, BodyError>
    requires runs { RunsListed op.now }
    requires plain { holds_labels (kind_is op.now.immediates) ≡ false }
    ensures { IsPaired (instr_at (look (S.sight scope.now)) (seen op.now)) result offset }
{
    match instr_of(op, scope.function(), scope.indices()) {
        Ok(Some(instr)) => Ok(instr),
        Ok(None) => unreachable!(),
        Err(error) => Err(fault_of(error, offset)),
    }
}

// The instruction, where there is a data count section.
fn counted<S: Scope>(scope: &S, instr: Instr, offset: u64) -> Result<Instr, BodyError>
    ensures { Meets result (must ((S.sight scope.now).has_data_count || false) Position) offset (λ same. same ≡ instr) }
{
    if !scope.has_data_count() {
        return Err(BodyError::Position {
            offset: Some(offset),
        });
    }
    Ok(instr)
}

// Of an operator that names a data segment.
fn on_segment<S: Scope>(scope: &S, op: &Operator, offset: u64) -> Result<Instr, BodyError>
    requires runs { RunsListed op.now }
    requires segment { segment_named op.now.immediates ≡ true }
    ensures { (labels : ℕ) (around : List ℕ) → Meets result (items_test (S.sight scope.now) labels (seen op.now)) offset (RunsAs (S.sight scope.now) around op.now.code (items_of op.now.immediates)) }
{
    match paired(scope, op, offset) {
        Ok(instr) => counted(scope, instr, offset),
        Err(fault) => Err(fault),
    }
}

// Whether the offset of an access is an address of its memory.
#[inline(always)]
fn is_within<S: Scope>(scope: &S, access: MemoryAccess) -> bool
    ensures { result ≡ (has_wide (S.sight scope.now) (look (S.sight scope.now) Memories access.memory) || nat_lt access.offset (2 ^ 32)) }
{
    match scope.indices().get_memory(access.memory) {
        Ok(memory) => scope.is_memory64(memory) || access.offset < 1 << 32,
        Err(_) => access.offset < 1 << 32,
    }
}

// The instruction, where it reaches addresses of the memory.
#[inline(always)]
fn within<S: Scope>(
    scope: &S,
    access: MemoryAccess,
    instr: Instr,
    offset: u64,
) -> Result<Instr, BodyError>
    ensures { Meets result (must (has_wide (S.sight scope.now) (look (S.sight scope.now) Memories access.memory) || nat_lt access.offset (2 ^ 32)) Bounds) offset (λ same. same ≡ instr) }
{
    if !is_within(scope, access) {
        return Err(BodyError::Bounds {
            offset: Some(offset),
        });
    }
    Ok(instr)
}

// The access of an operator that has one.
#[inline(always)]
fn access_of(immediates: &Immediates) -> Option<MemoryAccess>
    ensures { result ≡ accessed immediates.now }
{
    match immediates {
        Immediates::Access(access) | Immediates::AccessLane(access, _) => Some(*access),
        _ => None,
    }
}

// Of an operator that accesses a memory, or of which no more is asked than that its names are there. Both go one way, as all of the
// pairing is inlined: what would be twice as large isn't.
#[inline(always)]
fn plain<S: Scope>(scope: &S, op: &Operator, offset: u64) -> Result<Instr, BodyError>
    requires runs { RunsListed op.now }
    requires alone { (names_alone op.now.immediates || is_some (accessed op.now.immediates)) ≡ true }
    ensures { (labels : ℕ) (around : List ℕ) → Meets result (items_test (S.sight scope.now) labels (seen op.now)) offset (RunsAs (S.sight scope.now) around op.now.code (items_of op.now.immediates)) }
{
    match paired(scope, op, offset) {
        Ok(instr) => match access_of(&op.immediates) {
            Some(access) => within(scope, access, instr, offset),
            None => Ok(instr),
        },
        Err(fault) => Err(fault),
    }
}

// Of an operator that names a heap type alone.
fn on_heap<S: Scope>(
    scope: &S,
    op: &Operator,
    ty: HeapType,
    offset: u64,
) -> Result<Instr, BodyError>
    requires runs { RunsListed op.now }
    requires heap { items_of op.now.immediates ≡ Heap ty ∷ [] }
    ensures { (labels : ℕ) (around : List ℕ) → Meets result (items_test (S.sight scope.now) labels (seen op.now)) offset (RunsAs (S.sight scope.now) around op.now.code (items_of op.now.immediates)) }
{
    heap_type(scope, ty, offset)?;
    paired(scope, op, offset)
}

#[tactic(auto, using(crate::proofs::Tests::first_none))]
fn select<S: Scope>(scope: &S, types: &[ValType], offset: u64) -> Result<Instr, BodyError>
    ensures { (around : List ℕ) (code : Code) → Meets result (select_test (S.sight scope.now) types.now) offset (RunsAs (S.sight scope.now) around code (ManyValues types.now ∷ [])) }
{
    check_values(scope, types, offset)?;
    if let [ty] = types {
        let ty = value_type(scope, *ty, offset)?;
        return Ok(Instr::Select { ty: Some(ty) });
    }
    Err(unsupported(Form::Select, offset))
}

fn cast<S: Scope, L: Labels>(
    scope: &S,
    code: OpCode,
    flags: u8,
    depth: u32,
    types: (HeapType, HeapType),
    labels: &L,
    offset: u64,
) -> Result<Instr, BodyError>
    requires { (k : ℕ) (from to : Reference) → is_some (cast_at code k from to) ≡ true }
    ensures { Meets result (cast_test (S.sight scope.now) (L.ids labels.now) depth types.0 types.1) offset (RunsAs (S.sight scope.now) (L.ids labels.now) code (Byte flags ∷ Names LabelSpace depth ∷ Heap types.0 ∷ Heap types.1 ∷ [])) }
{
    let block = label(labels, depth, offset)?;
    check_heap(scope, types.0, offset)?;
    check_heap(scope, types.1, offset)?;
    let from_ty = RefType {
        nullable: flags % 2 == 1,
        heap_type: heap_type(scope, types.0, offset)?,
    };
    let to_ty = RefType {
        nullable: flags / 2 % 2 == 1,
        heap_type: heap_type(scope, types.1, offset)?,
    };
    match casting(code, block, from_ty, to_ty) {
        Some(instr) => Ok(instr),
        None => unreachable!(),
    }
}

/// The instruction of an operator that stands in a sequence.
#[inline(always)]
pub(crate) fn run<S: Scope, L: Labels>(
    scope: &S,
    alloc: Global,
    op: &Operator,
    labels: &L,
    offset: u64,
) -> Result<Instr, BodyError>
    requires { RunsListed op.now }
    ensures { AnswersIf (holds_list (kind_is op.now.immediates)) result (items_test (S.sight scope.now) (length (L.ids labels.now)) (seen op.now)) offset (RunsAs (S.sight scope.now) (L.ids labels.now) op.now.code (items_of op.now.immediates)) }
{
    let code = op.code;
    match &op.immediates {
        Immediates::Label(depth) => branch(code, *depth, labels, offset),
        Immediates::BrTable(depths, last) => {
            branch_table(alloc, depths.as_slice(), *last, labels, offset)
        }
        Immediates::Cast(flags, depth, from, to) => {
            cast(scope, code, *flags, *depth, (*from, *to), labels, offset)
        }
        Immediates::Heap(ty) => on_heap(scope, op, *ty, offset),
        Immediates::Select(types) => select(scope, types.as_slice(), offset),
        Immediates::DataMemory(_, _) | Immediates::Data(_) | Immediates::TypeData(_, _) => {
            on_segment(scope, op, offset)
        }
        Immediates::Block(_) | Immediates::TryTable(_, _) => unreachable!(),
        Immediates::Bare
        | Immediates::Tag(_)
        | Immediates::Function(_)
        | Immediates::TypeTable(_, _)
        | Immediates::Type(_)
        | Immediates::Local(_)
        | Immediates::Global(_)
        | Immediates::Table(_)
        | Immediates::Access(_)
        | Immediates::Memory(_)
        | Immediates::I32(_)
        | Immediates::I64(_)
        | Immediates::F32(_)
        | Immediates::F64(_)
        | Immediates::MemoryMemory(_, _)
        | Immediates::ElementTable(_, _)
        | Immediates::Element(_)
        | Immediates::TableTable(_, _)
        | Immediates::TypeNumber(_, _)
        | Immediates::TypeElement(_, _)
        | Immediates::TypeType(_, _)
        | Immediates::Vector(_)
        | Immediates::Lane(_)
        | Immediates::AccessLane(_, _)
        | Immediates::Zero => plain(scope, op, offset),
    }
}
