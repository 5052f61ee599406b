//! Forms that stand in no file: shared globals and exact heap types.
ghost use Rattle.std.specs.Prelude.{◌≡◌, ◌<◌, ℕ, false, Decides, IfOk, MatchOption, Some, slice_get};
ghost use Rattle.std.specs.Bool.{OnTrue};
ghost use Rattle.wasm_formats.specs.declared.fault.Space.TheVariants as spaces;
ghost use Rattle.walrus_arena.specs.Arena.{item_at};
ghost use Rattle.walrus_items.specs.Items.{Item as TypeItem};
ghost use Rattle.walrus_items.specs.declared.local.Local.{Local as AnyLocal};
ghost use Rattle.walrus_types.specs.Table.{type_at};
ghost use Rattle.walrus_instr.specs.declared.seq.InstrSeq.{InstrSeq as AnySeq};
ghost use Rattle.walrus_used.specs.walrus_module.walrus_module_items.declared.function.Function.{Function as AnyFunction};
ghost use Rattle.walrus_used.specs.walrus_module.walrus_module_items.declared.global.Global.{Global as AnyGlobal};
ghost use Rattle.walrus_used.specs.walrus_module.walrus_module_items.declared.data.Data.{Data as AnyData};
ghost use Rattle.walrus_exact.specs.Exact.{form_exact, seq_exact, table_exact, global_exact, element_exact, data_exact, val_exact};
ghost use Rattle.walrus_used.specs.walrus_module.Parts.{parts};
ghost use Rattle.walrus_roots.specs.Items.{item};
ghost use Rattle.walrus_marks.specs.Chains.{IsReached};
ghost use Rattle.walrus_used.specs.walrus_references.References.{Holds, IsEntry};
ghost use Rattle.walrus_used.specs.Bodies.{seq_counts};
ghost use Rattle.walrus_refusals.specs.Checks.{IsMet};
ghost use Rattle.walrus_refusals.specs.Written.{BodyHasNone, HasNoExact, HasNone, IsUnshared, KindHasNone};

use std::alloc::{AllocError, Global};
use walrus_arena::{DataId, ElementId, FunctionId, GlobalId, TableId, TypeId};
use walrus_exact::module_items::FunctionKind;
use walrus_exact::{
    data_exact, element_exact, form_exact, global_exact, seq_exact, table_exact, val_exact,
};
use walrus_instr::InstrSeq;
use walrus_items::Local;
use walrus_marks::Marks;
use walrus_roots::Item;
use walrus_types::ModuleTypes;
use walrus_used::collections::{
    ModuleData, ModuleElements, ModuleFunctions, ModuleGlobals, ModuleTables,
};
use walrus_used::module::Module;
use walrus_used::{Check, reached_seqs};
use wasm_formats::Space;

fn is_unshared(globals: &ModuleGlobals, id: GlobalId) -> bool
    ensures { Decides result (MatchOption (item_at globals.now id) (Unit {0}) (λ (g : AnyGlobal). g.shared ≡ false)) }
{
    !globals.contains(id) || !globals.get(id).shared
}

/// Whether a global isn't shared.
#[derive(Drop)]
pub(crate) struct Unshared<'a, B> {
    pub(crate) input: &'a Module<B>,
}

impl<'a, B> Check for Unshared<'a, B> {
    ghost holds = { λ s x. IsUnshared (parts s.input.now) x };

    fn check(&self, item: Item) -> Result<bool, AllocError>
        ensures { IfOk result (λ ok. Decides ok (IsUnshared (parts self.now.input.now) item)) }
    {
        match item.space {
            Space::Global => Ok(is_unshared(&self.input.globals, item.id())),
            _ => Ok(true),
        }
    }
}

// Whether no sequence has an exact heap type, reached or not.
fn have_none(seqs: &[InstrSeq]) -> bool
    ensures { OnTrue result (BodyHasNone seqs.now) }
{
    for index in 0..seqs.len() {
        if seq_exact(index, &seqs[index]) {
            return false;
        }
    }
    true
}

// Whether no reached sequence has one.
fn reached_have_none(seqs: &[InstrSeq], reached: &Marks) -> bool
    requires { IsReached (seq_counts seqs.now) IsEntry (Holds seqs.now) reached.now }
    ensures { Decides result (BodyHasNone seqs.now) }
{
    for index in 0..seqs.len() {
        if reached.has(Space::Label, index) && seq_exact(index, &seqs[index]) {
            return false;
        }
    }
    true
}

// The same, where what is reached isn't known yet.
fn body_has_none(alloc: Global, seqs: &[InstrSeq]) -> Result<bool, AllocError>
    ensures { IfOk result (λ ok. Decides ok (BodyHasNone seqs.now)) }
{
    if have_none(seqs) {
        return Ok(true);
    }
    let reached = reached_seqs(alloc, seqs)?;
    Ok(reached_have_none(seqs, &reached))
}

fn kind_has_none(alloc: Global, kind: &FunctionKind) -> Result<bool, AllocError>
    ensures { IfOk result (λ ok. Decides ok (KindHasNone kind.now)) }
{
    match kind {
        FunctionKind::Local(local) => body_has_none(alloc, local.builder().seqs()),
        FunctionKind::Import(_) | FunctionKind::Uninitialized(_) => Ok(true),
    }
}

fn function_has_none(
    alloc: Global,
    functions: &ModuleFunctions,
    id: FunctionId,
) -> Result<bool, AllocError>
    ensures { IfOk result (λ ok. Decides ok (MatchOption (item_at functions.now id) (Unit {0}) (λ (f : AnyFunction). KindHasNone f.kind))) }
{
    if !functions.contains(id) {
        return Ok(true);
    }
    kind_has_none(alloc, &functions.get(id).kind)
}

fn type_has_none(types: &ModuleTypes, id: TypeId) -> bool
    ensures { Decides result (HasNone (λ (ty : TypeItem). form_exact ty.kind.form) (type_at types.now id)) }
{
    !types.contains(id) || !form_exact(types.get(id).kind())
}

fn table_has_none(tables: &ModuleTables, id: TableId) -> bool
    ensures { Decides result (HasNone table_exact (item_at tables.now id)) }
{
    !tables.contains(id) || !table_exact(tables.get(id))
}

fn global_has_none(globals: &ModuleGlobals, id: GlobalId) -> bool
    ensures { Decides result (HasNone global_exact (item_at globals.now id)) }
{
    !globals.contains(id) || !global_exact(globals.get(id))
}

fn element_has_none(elements: &ModuleElements, id: ElementId) -> bool
    ensures { Decides result (HasNone element_exact (item_at elements.now id)) }
{
    !elements.contains(id) || !element_exact(elements.get(id))
}

fn data_has_none(segments: &ModuleData, id: DataId) -> bool
    ensures { Decides result (HasNone (λ (d : AnyData). data_exact d.kind) (item_at segments.now id)) }
{
    !segments.contains(id) || !data_exact(&segments.get(id).kind)
}

// Whether there is none in the type of this local, if there is such a local.
fn local_has_none(locals: &[Local], index: usize) -> bool
    ensures { Decides result (HasNone (λ (l : AnyLocal). val_exact l.ty) (slice_get locals.now index)) }
{
    match locals.get(index) {
        Some(local) => !val_exact(&local.ty()),
        None => true,
    }
}

/// Whether no heap type in an item is exact.
#[derive(Drop)]
pub(crate) struct Inexact<'a, B> {
    pub(crate) alloc: Global,
    pub(crate) input: &'a Module<B>,
}

impl<'a, B> Check for Inexact<'a, B> {
    ghost holds = { λ s x. HasNoExact (parts s.input.now) x };

    fn check(&self, item: Item) -> Result<bool, AllocError>
        ensures { IfOk result (λ ok. Decides ok (HasNoExact (parts self.now.input.now) item)) }
    {
        let input = self.input;
        match item.space {
            Space::Type => Ok(type_has_none(&input.types, item.id())),
            Space::Function => function_has_none(self.alloc, &input.funcs, item.id()),
            Space::Table => Ok(table_has_none(&input.tables, item.id())),
            Space::Global => Ok(global_has_none(&input.globals, item.id())),
            Space::Element => Ok(element_has_none(&input.elements, item.id())),
            Space::Data => Ok(data_has_none(&input.data_segments, item.id())),
            Space::Local => Ok(local_has_none(input.locals.iter().as_slice(), item.id as usize)),
            Space::Memory | Space::Tag | Space::Label => Ok(true),
        }
    }
}

/// Whether there is none in the type of a local that was met.
pub(crate) fn locals_have_none(locals: &[Local], marks: &Marks) -> bool
    ensures { Decides result ((id : ℕ) → IsMet marks.now (item spaces.Local id) → HasNone (λ (l : AnyLocal). val_exact l.ty) (slice_get locals.now id)) }
{
    for index in 0..locals.len() {
        if marks.has(Space::Local, index) && !local_has_none(locals, index) {
            return false;
        }
    }
    true
}
