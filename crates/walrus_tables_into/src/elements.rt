//! Element segments (Core Specification, element segments).

ghost use Rattle.std.specs.Prelude.{◌≡◌, IfOk, IfErr, OnOk, OnErr};
ghost use Rattle.std.specs.List.{AllZip, Any};
ghost use Rattle.walrus_sections_into.specs.walrus_collections.Added.{Adds};
ghost use Rattle.walrus_sections_into.specs.walrus_forms.walrus_arena.Arena.{next_id};
ghost use Rattle.walrus_sections_into.specs.walrus_index_maps.Views.{ids};
ghost use Rattle.walrus_sections_into.specs.Becomes.{look_of};
ghost use Rattle.walrus_sections_into.specs.Slots.{Filled, FilledInPart};
ghost use Rattle.walrus_sections_into.specs.declared.error.IntoError.TheVariants.{Unknown};
ghost use Rattle.walrus_tables_into.specs.Elements.{IsElementOf, ModeBecomes, ItemsBecome, IsFunctionOf, ExprBecomes, ElementLacks, ModeLacks, ItemsLack, NoFunction, ExprLacks};

use crate::types::read_ref;
use std::alloc::Global;
use walrus_sections_into::arena::FunctionId;
use walrus_sections_into::collections::ModuleElements;
use walrus_sections_into::index_maps::IndicesToIds;
use walrus_sections_into::instr::ConstExpr;
use walrus_sections_into::known_sections::{Element, ElementItems as ReadItems, Mode};
use walrus_sections_into::module_items::{ElementItems, ElementKind};
use walrus_sections_into::operators::Operator;
use walrus_sections_into::{IntoError, function_id, read_expr, table_id};

// When it is copied.
fn read_mode(alloc: Global, mode: &Mode, maps: &IndicesToIds) -> Result<ElementKind, IntoError>
    ensures becomes { IfOk result (ModeBecomes (look_of (ids maps.now)) mode.now) }
    ensures unknown { IfErr result (λ e. e ≡ Unknown → ModeLacks (look_of (ids maps.now)) mode.now) }
{
    match mode {
        Mode::Passive => Ok(ElementKind::Passive),
        Mode::Declared => Ok(ElementKind::Declared),
        Mode::Active(table, offset) => {
            let table = table_id(*table, maps)?;
            let offset = read_expr(alloc, offset.as_slice(), maps)?;
            Ok(ElementKind::Active { table, offset })
        }
    }
}

// The functions of these numbers.
fn read_functions(
    alloc: Global,
    numbers: &[u32],
    maps: &IndicesToIds,
) -> Result<Vec<FunctionId>, IntoError>
    ensures becomes { IfOk result (λ functions. AllZip (IsFunctionOf (look_of (ids maps.now))) numbers.now functions.items) }
    ensures unknown { IfErr result (λ e. e ≡ Unknown → Any (NoFunction (look_of (ids maps.now))) numbers.now) }
{
    let mut functions = Vec::new(alloc);
    for number in numbers {
        let function = function_id(*number, maps)?;
        functions.push(function)?;
    }
    Ok(functions)
}

// The expressions of these operators.
fn read_exprs(
    alloc: Global,
    exprs: &[Vec<Operator>],
    maps: &IndicesToIds,
) -> Result<Vec<ConstExpr>, IntoError>
    ensures becomes { IfOk result (λ list. AllZip (ExprBecomes (look_of (ids maps.now))) exprs.now list.items) }
    ensures unknown { IfErr result (λ e. e ≡ Unknown → Any (ExprLacks (look_of (ids maps.now))) exprs.now) }
{
    let mut list = Vec::new(alloc);
    for operators in exprs {
        let expr = read_expr(alloc, operators.as_slice(), maps)?;
        list.push(expr)?;
    }
    Ok(list)
}

// What it holds.
fn read_items(
    alloc: Global,
    items: &ReadItems,
    maps: &IndicesToIds,
) -> Result<ElementItems, IntoError>
    ensures becomes { IfOk result (ItemsBecome (look_of (ids maps.now)) items.now) }
    ensures unknown { IfErr result (λ e. e ≡ Unknown → ItemsLack (look_of (ids maps.now)) items.now) }
{
    match items {
        ReadItems::Functions(numbers) => {
            let functions = read_functions(alloc, numbers.as_slice(), maps)?;
            Ok(ElementItems::Functions(functions))
        }
        ReadItems::Expressions(ty, exprs) => {
            let ty = read_ref(*ty, maps)?;
            let exprs = read_exprs(alloc, exprs.as_slice(), maps)?;
            Ok(ElementItems::Expressions(ty, exprs))
        }
    }
}

fn add_element(
    alloc: Global,
    element: &Element,
    maps: &IndicesToIds,
    into: &mut ModuleElements,
) -> Result<(), IntoError>
    ensures added { OnOk result (Adds (IsElementOf (look_of (ids maps.now)) (next_id into.old) element.now) into.old into.new) }
    ensures refused { OnErr result (into.new ≡ into.old) }
    ensures unknown { IfErr result (λ e. e ≡ Unknown → ElementLacks (look_of (ids maps.now)) element.now) }
{
    let kind = read_mode(alloc, &element.mode, maps)?;
    let items = read_items(alloc, &element.items, maps)?;
    into.add(kind, items)?;
    Ok(())
}

/// Adds the element segments, in their order.
///
/// # Errors
///
/// Want of memory; `Unknown` only where one names no table, no function or no type, or an operator of an expression names nothing
/// or isn't constant. The first of the segments may be there.
pub fn add_elements(
    alloc: Global,
    elements: &[Element],
    maps: &IndicesToIds,
    into: &mut ModuleElements,
) -> Result<(), IntoError>
    ensures added { OnOk result (Filled (IsElementOf (look_of (ids maps.now))) elements.now into.old.slots into.new.slots) }
    ensures in_part { OnErr result (FilledInPart (IsElementOf (look_of (ids maps.now))) elements.now into.old.slots into.new.slots) }
    ensures unknown { IfErr result (λ e. e ≡ Unknown → Any (ElementLacks (look_of (ids maps.now))) elements.now) }
{
    for element in elements {
        add_element(alloc, element, maps, into)?;
    }
    Ok(())
}
