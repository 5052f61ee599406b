//! Adding what stands in an item.
ghost use Rattle.std.specs.Prelude.{◌≡◌, ◌++◌, OnOk, map};
ghost use Rattle.std.specs.List.{flat_map};
ghost use Rattle.wasm_formats.specs.declared.fault.Space.TheVariants as spaces;
ghost use Rattle.walrus_walks.specs.Events.{ref_names, val_names};
ghost use Rattle.walrus_walks.specs.ConstEvents.{expr_names};
ghost use Rattle.walrus_item_meaning.specs.Meaning.{table_init};
ghost use Rattle.walrus_roots.specs.Items.{item};
ghost use Rattle.walrus_marks.specs.Named.{items_of};
ghost use Rattle.walrus_used.specs.walrus_references.References.{data_items, element_items, global_items, held_items, init_items, place_items, table_items, value_items};

use crate::told::add_told;
use std::alloc::AllocError;
use walrus_arena::{FunctionId, TypeId};
use walrus_forms::{HeapType, RefType, ValType};
use walrus_instr::ConstExpr;
use walrus_item_meaning::table_init;
use walrus_module::module_items::{
    DataKind, Element, ElementItems, ElementKind, Global, GlobalKind, Table,
};
use walrus_roots::Item;
use wasm_formats::Space;

/// Adds the type that a reference type names.
///
/// # Errors
///
/// Want of memory.
pub(crate) fn add_ref_type(named: &mut Vec<Item>, ty: &RefType) -> Result<(), AllocError>
    ensures { OnOk result (named.new.items ≡ named.old.items ++ items_of (ref_names ty.now)) }
{
    match ty.heap_type {
        HeapType::Abstract(_) => {}
        HeapType::Shared(_) => {}
        HeapType::Concrete(id) => named.push(Item::new(Space::Type, id))?,
        HeapType::Exact(id) => named.push(Item::new(Space::Type, id))?,
    }
    Ok(())
}

/// Adds the type that a value type names.
///
/// # Errors
///
/// Want of memory.
pub(crate) fn add_val_type(named: &mut Vec<Item>, ty: &ValType) -> Result<(), AllocError>
    ensures { OnOk result (named.new.items ≡ named.old.items ++ items_of (val_names ty.now)) }
{
    match ty {
        ValType::Ref(ty) => add_ref_type(named, ty),
        _ => Ok(()),
    }
}

/// Adds these types.
///
/// # Errors
///
/// Want of memory.
pub(crate) fn add_types(named: &mut Vec<Item>, types: &[TypeId]) -> Result<(), AllocError>
    ensures { OnOk result (named.new.items ≡ named.old.items ++ map (item spaces.Type) types.now) }
{
    for ty in types {
        named.push(Item::new(Space::Type, *ty))?;
    }
    Ok(())
}

fn add_functions(named: &mut Vec<Item>, functions: &[FunctionId]) -> Result<(), AllocError>
    ensures { OnOk result (named.new.items ≡ named.old.items ++ map (item spaces.Function) functions.now) }
{
    for function in functions {
        named.push(Item::new(Space::Function, *function))?;
    }
    Ok(())
}

fn add_exprs(named: &mut Vec<Item>, exprs: &[ConstExpr]) -> Result<(), AllocError>
    ensures { OnOk result (named.new.items ≡ named.old.items ++ flat_map (λ e. items_of (expr_names e)) exprs.now) }
{
    for expr in exprs {
        add_told(named, expr)?;
    }
    Ok(())
}

fn add_init(named: &mut Vec<Item>, table: &Table) -> Result<(), AllocError>
    ensures { OnOk result (named.new.items ≡ named.old.items ++ init_items (table_init table.now)) }
{
    match table_init(table) {
        Some(init) => add_told(named, init),
        None => Ok(()),
    }
}

/// Adds the element type of a table, and what its initialiser names.
///
/// # Errors
///
/// Want of memory.
pub(crate) fn add_table(named: &mut Vec<Item>, table: &Table) -> Result<(), AllocError>
    ensures { OnOk result (named.new.items ≡ named.old.items ++ table_items table.now) }
{
    add_ref_type(named, &table.element_ty)?;
    add_init(named, table)
}

fn add_value(named: &mut Vec<Item>, kind: &GlobalKind) -> Result<(), AllocError>
    ensures { OnOk result (named.new.items ≡ named.old.items ++ value_items kind.now) }
{
    match kind {
        GlobalKind::Import(_) => Ok(()),
        GlobalKind::Local(init) => add_told(named, init),
    }
}

/// Adds the type of a global, and what its initialiser names.
///
/// # Errors
///
/// Want of memory.
pub(crate) fn add_global(named: &mut Vec<Item>, global: &Global) -> Result<(), AllocError>
    ensures { OnOk result (named.new.items ≡ named.old.items ++ global_items global.now) }
{
    add_val_type(named, &global.ty)?;
    add_value(named, &global.kind)
}

/// Adds the memory of an active data segment, and what its offset names.
///
/// # Errors
///
/// Want of memory.
pub(crate) fn add_data(named: &mut Vec<Item>, kind: &DataKind) -> Result<(), AllocError>
    ensures { OnOk result (named.new.items ≡ named.old.items ++ data_items kind.now) }
{
    match kind {
        DataKind::Active { memory, offset } => {
            named.push(Item::new(Space::Memory, *memory))?;
            add_told(named, offset)
        }
        DataKind::Passive => Ok(()),
    }
}

fn add_place(named: &mut Vec<Item>, kind: &ElementKind) -> Result<(), AllocError>
    ensures { OnOk result (named.new.items ≡ named.old.items ++ place_items kind.now) }
{
    match kind {
        ElementKind::Active { table, offset } => {
            named.push(Item::new(Space::Table, *table))?;
            add_told(named, offset)
        }
        ElementKind::Passive => Ok(()),
        ElementKind::Declared => Ok(()),
    }
}

fn add_held(named: &mut Vec<Item>, items: &ElementItems) -> Result<(), AllocError>
    ensures { OnOk result (named.new.items ≡ named.old.items ++ held_items items.now) }
{
    match items {
        ElementItems::Functions(functions) => add_functions(named, functions.as_slice()),
        ElementItems::Expressions(ty, exprs) => {
            add_ref_type(named, ty)?;
            add_exprs(named, exprs.as_slice())
        }
    }
}

/// Adds the table of an active element segment, what its offset names, and what the segment holds.
///
/// # Errors
///
/// Want of memory.
pub(crate) fn add_element(named: &mut Vec<Item>, element: &Element) -> Result<(), AllocError>
    ensures { OnOk result (named.new.items ≡ named.old.items ++ element_items element.now) }
{
    add_place(named, &element.kind)?;
    add_held(named, &element.items)
}
