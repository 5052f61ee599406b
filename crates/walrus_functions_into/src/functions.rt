//! Functions: their types first, their bodies later.

ghost use Rattle.std.specs.Prelude.{◌≡◌, ◌<◌, ◌≤◌, ◌+◌, [], ◌∷◌, ◌++◌, length, None, Some, IsOk, IfOk, IfSome, OnOk, OnErr};
ghost use Rattle.walrus_arena.specs.Arena.{IsLive, item_at, next_id, with_item};
ghost use Rattle.walrus_collections.specs.walrus_tree.walrus_walks.walrus_types.walrus_forms.Renaming.{at};
ghost use Rattle.walrus_index_maps.specs.Views.{ids};
ghost use Rattle.walrus_collections.specs.walrus_module_items.declared.function.FunctionKind.TheVariants as kinds;
ghost use Rattle.walrus_functions_into.specs.Functions.{AddsFunctions, AreTyped, NumbersSome, function_as, functions_from, with_functions};

use std::alloc::AllocError;
use walrus_arena::{FunctionId, ImportId, TypeId};
use walrus_collections::ModuleFunctions;
use walrus_collections::local_function::LocalFunction;
use walrus_collections::module_items::FunctionKind;
use walrus_index_maps::IndicesToIds;
use walrus_types_into::known_sections::Function;

// Lets a live function be of this kind.
fn give_kind(functions: &mut ModuleFunctions, function: FunctionId, kind: FunctionKind)
    requires { IsLive functions.old function }
    ensures { IfSome (item_at functions.old function) (λ item. functions.new ≡ with_item functions.old function (record item { kind = kind })) }
{
    functions.get_mut(function).kind = kind;
}

/// Adds a function of this type that has no body yet, and gives its id. Takes no memory but that of its slot.
///
/// # Errors
///
/// Want of memory. The functions stay as they were.
pub fn add_bodiless(ty: TypeId, functions: &mut ModuleFunctions) -> Result<FunctionId, AllocError>
    ensures id { IfOk result (λ id. id ≡ next_id functions.old) }
    ensures added { IfOk result (λ id. functions.new.slots ≡ functions.old.slots ++ Some (record { id = id; kind = kinds.Uninitialized ty; name = None }) ∷ []) }
    ensures room { functions.old.room ≤ functions.new.room + 1 }
    ensures succeeds { 0 < functions.old.room → IsOk result }
    ensures refused { OnErr result (functions.new ≡ functions.old) }
{
    // No import brings it: its kind is another one at once.
    let id = functions.add_import(ty, ImportId::from_index(0))?;
    give_kind(functions, id, FunctionKind::Uninitialized(ty));
    Ok(id)
}

/// Gives a live function this body in place of what it had: its type is the body's, its id and its name stay. Takes no memory.
pub fn give_body(functions: &mut ModuleFunctions, function: FunctionId, body: LocalFunction)
    requires { IsLive functions.old function }
    ensures { IfSome (item_at functions.old function) (λ item. functions.new ≡ with_item functions.old function (record item { kind = kinds.Local body })) }
{
    give_kind(functions, function, FunctionKind::Local(body));
}

// The import of this number. 2^32 of them can't be held.
fn import_id(number: usize) -> Result<ImportId, AllocError>
    ensures { IfOk result (λ id. id ≡ number) }
{
    if number > u32::MAX as usize {
        return Err(AllocError);
    }
    Ok(ImportId::from_index(number))
}

// The type of this number.
fn type_id(number: u32, maps: &IndicesToIds) -> TypeId
    requires { number < length (ids maps.now).types }
    ensures { result ≡ at (ids maps.now).types number }
{
    match maps.get_type(number) {
        Ok(id) => id,
        Err(_) => unreachable!(),
    }
}

// Adds a function that was read, and gives its id.
fn add_function(
    function: &Function,
    maps: &IndicesToIds,
    into: &mut ModuleFunctions,
) -> Result<FunctionId, AllocError>
    requires { function.now.ty < length (ids maps.now).types }
    ensures id { IfOk result (λ id. id ≡ next_id into.old) }
    ensures added { OnOk result (into.new.slots ≡ into.old.slots ++ Some (function_as (ids maps.now).types (next_id into.old) function.now) ∷ []) }
    ensures refused { OnErr result (into.new ≡ into.old) }
{
    let ty = type_id(function.ty, maps);
    match function.import {
        Some(number) => {
            let import = import_id(number)?;
            into.add_import(ty, import)
        }
        None => add_bodiless(ty, into),
    }
}

/// Adds the functions that were read, imported ones too, in their order, and lets the next indices of functions name them. The
/// other ones have a type, and no body yet. Asks that each names a type of the map, as functions that were read do.
///
/// # Errors
///
/// Want of memory. The first ones may be added, and the ids of the first ones.
pub fn add_functions(
    functions: &[Function],
    maps: &mut IndicesToIds,
    into: &mut ModuleFunctions,
) -> Result<(), AllocError>
    requires { AreTyped (ids maps.old).types functions.now }
    ensures added { OnOk result (into.new.slots ≡ into.old.slots ++ functions_from (ids maps.old).types (next_id into.old) functions.now) }
    ensures numbered { OnOk result (ids maps.new ≡ with_functions (next_id into.old) (length functions.now) (ids maps.old)) }
    ensures refused { OnErr result (AddsFunctions (ids maps.old).types functions.now into.old into.new) }
    ensures some { OnErr result (NumbersSome (next_id into.old) (length functions.now) (ids maps.old) (ids maps.new)) }
{
    for function in functions {
        let id = add_function(function, maps, into)?;
        maps.push_func(id)?;
    }
    Ok(())
}
