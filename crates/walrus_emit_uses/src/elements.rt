//! Element segments (Core Specification, binary format: element section).

ghost use Rattle.std.specs.Prelude.{◌≡◌, ◌<◌, ◌++◌};
ghost use Rattle.wasm_formats.specs.declared.fault.Space.TheVariants as spaces;
ghost use Rattle.wasm_section_bytes.specs.Flags as flags;
ghost use Rattle.walrus_index_maps.specs.Views.{indices};
ghost use Rattle.walrus_pairing.specs.Looks.{number_of};
ghost use Rattle.walrus_meaning.specs.Meaning.{own_element, own_elements, own_table, slots_of};
ghost use Rattle.walrus_meaning.specs.Words.{own_expr};
ghost use Rattle.walrus_emit_parts.specs.Due.{Writes, number, vec};
ghost use Rattle.walrus_emit_due.specs.Values.{expr, index};
ghost use Rattle.walrus_emit_due.specs.Slots.{live_at};
ghost use Rattle.walrus_emit_due.specs.Elements as due;

use walrus_arena::{FunctionId, TableId};
use walrus_collections::module_items::{Element, ElementItems, ElementKind};
use walrus_collections::{ModuleElements, ModuleTables};
use walrus_emit_parts::{Entry, write_byte, write_number, write_vec};
use walrus_emit_sections::{OwnEntry, write_limited};
use walrus_emit_values::{write_expr, write_index, write_reference};
use walrus_errors::{Limited, Result, Space};
use walrus_forms::{AbstractHeapType, HeapType, RefType};
use walrus_index_maps::IdsToIndices;
use walrus_instr::ConstExpr;

// What a reader takes at most.
const MAX: u64 = 100_000;

// Whether these are references to functions, of any function type, or null.
fn is_funcref(ty: &RefType) -> bool
    ensures { result ≡ flags.is_funcref ty.now }
{
    ty.nullable && matches!(ty.heap_type, HeapType::Abstract(AbstractHeapType::Func))
}

// Whether a form that doesn't tell what the items are means these.
fn are_plain(items: &ElementItems) -> bool
    ensures { result ≡ due.are_plain (own_elements items.now) }
{
    match items {
        ElementItems::Functions(_) => true,
        ElementItems::Expressions(ty, _) => is_funcref(ty),
    }
}

// Whether it lives, and its addresses have 32 bits.
fn is_narrow(tables: &ModuleTables, table: TableId) -> bool
    ensures { result ≡ due.is_narrow (live_at (slots_of own_table tables.now) table) }
{
    if !tables.contains(table) {
        return false;
    }
    !tables.get(table).table64
}

// Whether a form that doesn't say which table means this one.
fn is_plain_table(tables: &ModuleTables, table: TableId, maps: &IdsToIndices) -> bool
    ensures { result ≡ due.is_plain_table (number_of (indices maps.now) 0) (slots_of own_table tables.now) table }
{
    match maps.get_table_index(table) {
        Some(number) => number == 0 && is_narrow(tables, table),
        None => false,
    }
}

// The number of a form.
fn write_form(out: &mut Vec<u8>, first: u64, items: &ElementItems) -> Result<()>
    requires { first < 4 }
    ensures { Writes (number (due.form first (own_elements items.now))) out.old.items out.new.items result }
{
    match items {
        ElementItems::Functions(_) => write_number(out, first),
        ElementItems::Expressions(_, _) => write_number(out, first + 4),
    }
}

#[derive(Clone, Copy)]
struct Functions<'a>(&'a IdsToIndices);

impl<'a> Entry<FunctionId> for Functions<'a> {
    ghost use Rattle.std.specs.Prelude.{ℕ};
    ghost use Rattle.wasm_formats.specs.declared.fault.Space.TheVariants as spaces;
    ghost use Rattle.walrus_index_maps.specs.Views.{indices};
    ghost use Rattle.walrus_emit_due.specs.Values.{index};

    ghost Seen = { ℕ };

    ghost see = { λ id. id };

    ghost due = { λ w id. index spaces.Function ((indices w.0.now).functions.number id) };

    fn write(&self, out: &mut Vec<u8>, id: &FunctionId) -> Result<()> {
        write_index(out, Space::Function, self.0.get_func_index(*id))
    }
}

#[derive(Clone, Copy)]
struct Exprs<'a>(&'a IdsToIndices);

impl<'a> Entry<ConstExpr> for Exprs<'a> {
    ghost use Rattle.wasm_grammar.specs.Modules.{Expr};
    ghost use Rattle.walrus_index_maps.specs.Views.{indices};
    ghost use Rattle.walrus_pairing.specs.Looks.{number_of};
    ghost use Rattle.walrus_meaning.specs.Words.{own_expr};
    ghost use Rattle.walrus_emit_due.specs.Values.{expr};

    ghost Seen = { Expr };

    ghost see = { own_expr };

    ghost due = { λ w. expr (number_of (indices w.0.now) 0) };

    fn write(&self, out: &mut Vec<u8>, expr: &ConstExpr) -> Result<()> {
        write_expr(out, expr, self.0)
    }
}

// What the items are.
fn write_type(out: &mut Vec<u8>, items: &ElementItems, maps: &IdsToIndices) -> Result<()>
    ensures { Writes (due.type_of (number_of (indices maps.now) 0) (own_elements items.now)) out.old.items out.new.items result }
{
    match items {
        ElementItems::Functions(_) => write_byte(out, 0),
        ElementItems::Expressions(ty, _) => write_reference(out, *ty, maps),
    }
}

#[tactic(auto, using(crate::proofs::Lemmas::ids_written))]
fn write_functions(out: &mut Vec<u8>, ids: &[FunctionId], maps: &IdsToIndices) -> Result<()>
    ensures { Writes (vec (λ id. index spaces.Function ((indices maps.now).functions.number id)) ids.now) out.old.items out.new.items result }
{
    write_vec(out, &Functions(maps), ids)
}

fn write_list(out: &mut Vec<u8>, items: &ElementItems, maps: &IdsToIndices) -> Result<()>
    ensures { Writes (due.list_of (number_of (indices maps.now) 0) (own_elements items.now)) out.old.items out.new.items result }
{
    match items {
        ElementItems::Functions(ids) => write_functions(out, ids.as_slice(), maps),
        ElementItems::Expressions(_, exprs) => write_vec(out, &Exprs(maps), exprs.as_slice()),
    }
}

// What the items are, and the items.
#[tactic(auto, using(walrus_emit_parts::proofs::Lemmas::writes_on, walrus_emit_parts::proofs::Lemmas::refused_front))]
fn write_items(out: &mut Vec<u8>, items: &ElementItems, maps: &IdsToIndices) -> Result<()>
    ensures { Writes (due.items_of (number_of (indices maps.now) 0) (own_elements items.now)) out.old.items out.new.items result }
{
    put!(write_type(out, items, maps));
    write_list(out, items, maps)
}

// A segment that is active in no table.
#[tactic(auto, using(walrus_emit_parts::proofs::Lemmas::writes_on, walrus_emit_parts::proofs::Lemmas::refused_front))]
fn write_idle(
    out: &mut Vec<u8>,
    first: u64,
    items: &ElementItems,
    maps: &IdsToIndices,
) -> Result<()>
    requires { first < 4 }
    ensures { Writes (number (due.form first (own_elements items.now)) ++ due.items_of (number_of (indices maps.now) 0) (own_elements items.now)) out.old.items out.new.items result }
{
    put!(write_form(out, first, items));
    write_items(out, items, maps)
}

// An offset, and items.
#[tactic(auto, using(walrus_emit_parts::proofs::Lemmas::writes_on, walrus_emit_parts::proofs::Lemmas::refused_front))]
fn write_bare(
    out: &mut Vec<u8>,
    offset: &ConstExpr,
    items: &ElementItems,
    maps: &IdsToIndices,
) -> Result<()>
    ensures { Writes (expr (number_of (indices maps.now) 0) (own_expr offset.now) ++ due.list_of (number_of (indices maps.now) 0) (own_elements items.now)) out.old.items out.new.items result }
{
    put!(write_expr(out, offset, maps));
    write_list(out, items, maps)
}

// A segment that is active in the first table.
#[tactic(auto, using(walrus_emit_parts::proofs::Lemmas::writes_on, walrus_emit_parts::proofs::Lemmas::refused_front))]
fn write_plain(
    out: &mut Vec<u8>,
    offset: &ConstExpr,
    items: &ElementItems,
    maps: &IdsToIndices,
) -> Result<()>
    ensures { Writes (due.plain (number_of (indices maps.now) 0) (own_expr offset.now) (own_elements items.now)) out.old.items out.new.items result }
{
    put!(write_form(out, 0, items));
    write_bare(out, offset, items, maps)
}

// An offset, and items with what they are.
#[tactic(auto, using(walrus_emit_parts::proofs::Lemmas::writes_on, walrus_emit_parts::proofs::Lemmas::refused_front))]
fn write_placed(
    out: &mut Vec<u8>,
    offset: &ConstExpr,
    items: &ElementItems,
    maps: &IdsToIndices,
) -> Result<()>
    ensures { Writes (expr (number_of (indices maps.now) 0) (own_expr offset.now) ++ due.items_of (number_of (indices maps.now) 0) (own_elements items.now)) out.old.items out.new.items result }
{
    put!(write_expr(out, offset, maps));
    write_items(out, items, maps)
}

// A table, an offset, and items with what they are.
#[tactic(auto, using(walrus_emit_parts::proofs::Lemmas::writes_on, walrus_emit_parts::proofs::Lemmas::refused_front))]
fn write_in(
    out: &mut Vec<u8>,
    table: TableId,
    offset: &ConstExpr,
    items: &ElementItems,
    maps: &IdsToIndices,
) -> Result<()>
    ensures { Writes (index spaces.Table ((indices maps.now).tables.number table) ++ (expr (number_of (indices maps.now) 0) (own_expr offset.now) ++ due.items_of (number_of (indices maps.now) 0) (own_elements items.now))) out.old.items out.new.items result }
{
    put!(write_index(out, Space::Table, maps.get_table_index(table)));
    write_placed(out, offset, items, maps)
}

// A segment that is active in any table.
#[tactic(auto, using(walrus_emit_parts::proofs::Lemmas::writes_on, walrus_emit_parts::proofs::Lemmas::refused_front))]
fn write_told(
    out: &mut Vec<u8>,
    table: TableId,
    offset: &ConstExpr,
    items: &ElementItems,
    maps: &IdsToIndices,
) -> Result<()>
    ensures { Writes (due.told (number_of (indices maps.now) 0) table (own_expr offset.now) (own_elements items.now)) out.old.items out.new.items result }
{
    put!(write_form(out, 2, items));
    write_in(out, table, offset, items, maps)
}

// Whether a form that says neither means this.
fn is_plain(
    items: &ElementItems,
    tables: &ModuleTables,
    table: TableId,
    maps: &IdsToIndices,
) -> bool
    ensures { result ≡ due.is_plain (number_of (indices maps.now) 0) (slots_of own_table tables.now) table (own_elements items.now) }
{
    are_plain(items) && is_plain_table(tables, table, maps)
}

fn write_active(
    out: &mut Vec<u8>,
    tables: &ModuleTables,
    table: TableId,
    offset: &ConstExpr,
    items: &ElementItems,
    maps: &IdsToIndices,
) -> Result<()>
    ensures { Writes (due.active (number_of (indices maps.now) 0) (slots_of own_table tables.now) table (own_expr offset.now) (own_elements items.now)) out.old.items out.new.items result }
{
    if is_plain(items, tables, table, maps) {
        write_plain(out, offset, items, maps)
    } else {
        write_told(out, table, offset, items, maps)
    }
}

fn write_element(
    out: &mut Vec<u8>,
    tables: &ModuleTables,
    item: &Element,
    maps: &IdsToIndices,
) -> Result<()>
    ensures { Writes (due.element (number_of (indices maps.now) 0) (slots_of own_table tables.now) (own_element item.now)) out.old.items out.new.items result }
{
    match &item.kind {
        ElementKind::Passive => write_idle(out, 1, &item.items, maps),
        ElementKind::Declared => write_idle(out, 3, &item.items, maps),
        ElementKind::Active { table, offset } => {
            write_active(out, tables, *table, offset, &item.items, maps)
        }
    }
}

#[derive(Clone, Copy)]
struct Elements<'a> {
    tables: &'a ModuleTables,
    maps: &'a IdsToIndices,
}

impl<'a> OwnEntry<Element> for Elements<'a> {
    ghost use Rattle.std.specs.Prelude.{true};
    ghost use Rattle.wasm_grammar.specs.Modules as grammar;
    ghost use Rattle.walrus_index_maps.specs.Views.{indices};
    ghost use Rattle.walrus_pairing.specs.Looks.{number_of};
    ghost use Rattle.walrus_meaning.specs.Meaning.{own_element, own_table, slots_of};
    ghost use Rattle.walrus_emit_due.specs.Elements.{element};

    ghost Seen = { grammar.Element };

    ghost see = { own_element };

    ghost has_entry = { λ _. true };

    ghost due = { λ w. element (number_of (indices w.maps.now) 0) (slots_of own_table w.tables.now) };

    fn has_entry(&self, _item: &Element) -> bool {
        true
    }

    fn write(&self, out: &mut Vec<u8>, item: &Element) -> Result<()> {
        write_element(out, self.tables, item, self.maps)
    }
}

/// Puts the element section behind the bytes, by rising id; nothing where there is no segment.
///
/// # Errors
///
/// `OutputLimit` where there are more segments than a reader takes; `DeadReference` where something that one names has no number;
/// `Unsupported` of exact types; want of memory. What was there stands at the front.
pub fn emit_elements(
    out: &mut Vec<u8>,
    items: &ModuleElements,
    tables: &ModuleTables,
    maps: &IdsToIndices,
) -> Result<()>
    ensures { Writes (due.elements (number_of (indices maps.now) 0) (slots_of own_table tables.now) (slots_of own_element items.now)) out.old.items out.new.items result }
{
    let writer = Elements { tables, maps };
    write_limited(out, 9, &writer, items, MAX, Limited::Elements)
}
