//! Meeting what stands in an item.
ghost use Rattle.std.specs.Prelude.{◌≡◌, ◌++◌, map, length};
ghost use Rattle.std.specs.List.{fold, flat_map};
ghost use Rattle.wasm_formats.specs.declared.fault.Space.TheVariants as spaces;
ghost use Rattle.walrus_walks.specs.Events.{ref_names, val_names};
ghost use Rattle.walrus_walks.specs.ConstEvents.{expr_names};
ghost use Rattle.walrus_item_meaning.specs.Meaning.{table_init};
ghost use Rattle.walrus_roots.specs.Items.{item};
ghost use Rattle.walrus_marks.specs.Marks.{meet};
ghost use Rattle.walrus_marks.specs.Named.{items_of};
ghost use Rattle.walrus_references.specs.References.{init_items, value_items, data_items, place_items, held_items};

use walrus_arena::{FunctionId, TypeId};
use walrus_forms::{HeapType, RefType, ValType};
use walrus_instr::ConstExpr;
use walrus_item_meaning::table_init;
use walrus_marks::Marks;
use walrus_module::module_items::{
    DataKind, Element, ElementItems, ElementKind, Global, GlobalKind, Table,
};
use walrus_roots::Item;
use wasm_formats::Space;

/// Meets the type that a reference type names.
pub(crate) fn meet_ref_type(marks: &mut Marks, ty: &RefType)
    ensures { marks.new ≡ fold meet marks.old (items_of (ref_names ty.now)) }
{
    match ty.heap_type {
        HeapType::Abstract(_) => {}
        HeapType::Shared(_) => {}
        HeapType::Concrete(id) => marks.meet(Item::new(Space::Type, id)),
        HeapType::Exact(id) => marks.meet(Item::new(Space::Type, id)),
    }
}

/// Meets the type that a value type names.
pub(crate) fn meet_val_type(marks: &mut Marks, ty: &ValType)
    ensures { marks.new ≡ fold meet marks.old (items_of (val_names ty.now)) }
{
    match ty {
        ValType::Ref(ty) => meet_ref_type(marks, ty),
        _ => {}
    }
}

/// Meets these types.
pub(crate) fn meet_types(marks: &mut Marks, types: &[TypeId])
    ensures { marks.new ≡ fold meet marks.old (map (item spaces.Type) types.now) }
{
    for ty in types {
        marks.meet(Item::new(Space::Type, *ty));
    }
}

fn meet_functions(marks: &mut Marks, functions: &[FunctionId])
    ensures { marks.new ≡ fold meet marks.old (map (item spaces.Function) functions.now) }
{
    for function in functions {
        marks.meet(Item::new(Space::Function, *function));
    }
}

fn meet_exprs(marks: &mut Marks, exprs: &[ConstExpr])
    ensures { marks.new ≡ fold meet marks.old (flat_map (λ e. items_of (expr_names e)) exprs.now) }
{
    for expr in exprs {
        marks.meet_told(expr);
    }
}

fn meet_init(marks: &mut Marks, table: &Table)
    ensures { marks.new ≡ fold meet marks.old (init_items (table_init table.now)) }
{
    match table_init(table) {
        Some(init) => marks.meet_told(init),
        None => {}
    }
}

/// Meets the element type of a table, and what its initialiser names.
pub(crate) fn meet_table(marks: &mut Marks, table: &Table)
    ensures { marks.new ≡ fold meet marks.old (items_of (ref_names table.now.element_ty) ++ init_items (table_init table.now)) }
{
    meet_ref_type(marks, &table.element_ty);
    meet_init(marks, table);
}

fn meet_value(marks: &mut Marks, kind: &GlobalKind)
    ensures { marks.new ≡ fold meet marks.old (value_items kind.now) }
{
    match kind {
        GlobalKind::Import(_) => {}
        GlobalKind::Local(init) => marks.meet_told(init),
    }
}

/// Meets the type of a global, and what its initialiser names.
pub(crate) fn meet_global(marks: &mut Marks, global: &Global)
    ensures { marks.new ≡ fold meet marks.old (items_of (val_names global.now.ty) ++ value_items global.now.kind) }
{
    meet_val_type(marks, &global.ty);
    meet_value(marks, &global.kind);
}

/// Meets the memory of an active data segment, and what its offset names.
pub(crate) fn meet_data(marks: &mut Marks, kind: &DataKind)
    ensures { marks.new ≡ fold meet marks.old (data_items kind.now) }
{
    match kind {
        DataKind::Active { memory, offset } => {
            marks.meet(Item::new(Space::Memory, *memory));
            marks.meet_told(offset)
        }
        DataKind::Passive => {}
    }
}

fn meet_place(marks: &mut Marks, kind: &ElementKind)
    ensures { marks.new ≡ fold meet marks.old (place_items kind.now) }
{
    match kind {
        ElementKind::Active { table, offset } => {
            marks.meet(Item::new(Space::Table, *table));
            marks.meet_told(offset)
        }
        ElementKind::Passive | ElementKind::Declared => {}
    }
}

fn meet_held(marks: &mut Marks, items: &ElementItems)
    ensures { marks.new ≡ fold meet marks.old (held_items items.now) }
{
    match items {
        ElementItems::Functions(functions) => meet_functions(marks, functions.as_slice()),
        ElementItems::Expressions(ty, exprs) => {
            meet_ref_type(marks, ty);
            meet_exprs(marks, exprs.as_slice())
        }
    }
}

/// Meets the table of an active element segment, what its offset names, and what the segment holds.
pub(crate) fn meet_element(marks: &mut Marks, element: &Element)
    ensures { marks.new ≡ fold meet marks.old (place_items element.now.kind ++ held_items element.now.items) }
{
    meet_place(marks, &element.kind);
    meet_held(marks, &element.items);
}
