//! Synthetic names: `f` and its number for each function with a body, `arg` or `l` and theirs for its locals.

ghost use Rattle.std.specs.Prelude.{◌≡◌, ◌<◌, ◌^◌, ◌++◌, ℕ, false, length, OnOk, IfOk, Some, slice_get, decimal, string_bytes};
ghost use Rattle.walrus_index_maps.specs.Views.{ids};
ghost use Rattle.walrus_payloads_into.specs.Numbered.{locals_in};
ghost use Rattle.walrus_arena.specs.Arena.{item_at};
ghost use Rattle.walrus_item_names.specs.Sent.{sent_names};
ghost use Rattle.walrus_item_names.specs.Holder.{holder};
ghost use Rattle.walrus_item_names.specs.Names.{unnamed};
ghost use Rattle.walrus_item_names.specs.Gives.{GivesNames};
ghost use Rattle.walrus_item_names.specs.Synthetic.{local_text, each_below, local_names, args_of, synthetic_at, synthetic};

use crate::give::give;
use crate::target::{Target, find};
use std::alloc::{AllocError, Global};
use walrus_arena::FunctionId;
use walrus_index_maps::IndicesToIds;
use walrus_module::collections::{
    ModuleData, ModuleElements, ModuleFunctions, ModuleGlobals, ModuleMemories, ModuleTables,
    ModuleTags,
};
use walrus_module::module_items::FunctionKind;
use walrus_payload_readers::Bearer;
use walrus_types::{ModuleLocals, ModuleTypes};

// A word and a number.
fn word_and_number(alloc: Global, word: &str, number: u32) -> Result<String, AllocError>
    ensures { IfOk result (λ text. string_bytes text ≡ word.now ++ decimal number) }
{
    format!(in alloc; "{word}{number}")
}

// The name of a local of a function of so many arguments.
fn local_text(alloc: Global, args: usize, number: u32) -> Result<String, AllocError>
    ensures { IfOk result (λ text. string_bytes text ≡ local_text args number) }
{
    let word = if (number as usize) < args { "arg" } else { "l" };
    word_and_number(alloc, word, number)
}

// How many arguments the function has, if it lives and has a body.
fn count_args(functions: &ModuleFunctions, id: FunctionId) -> Option<usize>
    ensures { result ≡ args_of (item_at functions.now id) }
{
    if !functions.contains(id) {
        return None;
    }
    match &functions.get(id).kind {
        FunctionKind::Local(body) => Some(body.args.len()),
        FunctionKind::Import(_) => None,
        FunctionKind::Uninitialized(_) => None,
    }
}

// Each local of a function of so many arguments gets its name.
fn name_locals(
    alloc: Global,
    function: u32,
    args: usize,
    maps: &IndicesToIds,
    types: &mut ModuleTypes,
    funcs: &mut ModuleFunctions,
    tables: &mut ModuleTables,
    memories: &mut ModuleMemories,
    tags: &mut ModuleTags,
    globals: &mut ModuleGlobals,
    elements: &mut ModuleElements,
    data_segments: &mut ModuleData,
    locals: &mut ModuleLocals,
    own: &mut Option<String>,
) -> Result<(), AllocError>
    requires { length (locals_in (ids maps.now) function) < 2 ^ 32 }
    ensures gives { OnOk result (GivesNames (sent_names false (ids maps.now) (each_below (length (locals_in (ids maps.now) function)) (local_names function args))) (holder types.old funcs.old tables.old memories.old tags.old globals.old elements.old data_segments.old locals.old own.old) (holder types.new funcs.new tables.new memories.new tags.new globals.new elements.new data_segments.new locals.new own.new)) }
    ensures same { unnamed (holder types.new funcs.new tables.new memories.new tags.new globals.new elements.new data_segments.new locals.new own.new) ≡ unnamed (holder types.old funcs.old tables.old memories.old tags.old globals.old elements.old data_segments.old locals.old own.old) }
{
    let mut number: u32 = 0;
    while let Some(target) = find(Bearer::Local(function, number), maps) {
        let name = local_text(alloc, args, number)?;
        give(
            target,
            name,
            types,
            funcs,
            tables,
            memories,
            tags,
            globals,
            elements,
            data_segments,
            locals,
            own,
        );
        number += 1;
    }
    Ok(())
}

// So does the function, and all its locals, if it has a body.
#[tactic(auto, using(crate::proofs::Numbers::function_gives, crate::proofs::Numbers::bodiless_gives))]
fn name_function(
    alloc: Global,
    number: u32,
    id: FunctionId,
    maps: &IndicesToIds,
    types: &mut ModuleTypes,
    funcs: &mut ModuleFunctions,
    tables: &mut ModuleTables,
    memories: &mut ModuleMemories,
    tags: &mut ModuleTags,
    globals: &mut ModuleGlobals,
    elements: &mut ModuleElements,
    data_segments: &mut ModuleData,
    locals: &mut ModuleLocals,
    own: &mut Option<String>,
) -> Result<(), AllocError>
    requires named { slice_get (ids maps.now).functions number ≡ Some id }
    requires locals { length (locals_in (ids maps.now) number) < 2 ^ 32 }
    ensures gives { OnOk result (GivesNames (sent_names false (ids maps.now) (synthetic_at (ids maps.now) (holder types.old funcs.old tables.old memories.old tags.old globals.old elements.old data_segments.old locals.old own.old) number)) (holder types.old funcs.old tables.old memories.old tags.old globals.old elements.old data_segments.old locals.old own.old) (holder types.new funcs.new tables.new memories.new tags.new globals.new elements.new data_segments.new locals.new own.new)) }
    ensures same { unnamed (holder types.new funcs.new tables.new memories.new tags.new globals.new elements.new data_segments.new locals.new own.new) ≡ unnamed (holder types.old funcs.old tables.old memories.old tags.old globals.old elements.old data_segments.old locals.old own.old) }
{
    let Some(args) = count_args(funcs, id) else {
        return Ok(());
    };
    let name = word_and_number(alloc, "f", number)?;
    give(
        Target::Function(id),
        name,
        types,
        funcs,
        tables,
        memories,
        tags,
        globals,
        elements,
        data_segments,
        locals,
        own,
    );
    name_locals(
        alloc,
        number,
        args,
        maps,
        types,
        funcs,
        tables,
        memories,
        tags,
        globals,
        elements,
        data_segments,
        locals,
        own,
    )
}

/// Gives each function with a body the name `f` and its number, and each of its locals `arg`, or `l` where it is no argument, and the
/// local's number. It asks for fewer than 2^32 functions, and locals of each. Names of the file are to be given behind these.
///
/// # Errors
///
/// Want of memory. Some names may have been given.
pub fn give_synthetic_names(
    alloc: Global,
    maps: &IndicesToIds,
    types: &mut ModuleTypes,
    funcs: &mut ModuleFunctions,
    tables: &mut ModuleTables,
    memories: &mut ModuleMemories,
    tags: &mut ModuleTags,
    globals: &mut ModuleGlobals,
    elements: &mut ModuleElements,
    data_segments: &mut ModuleData,
    locals: &mut ModuleLocals,
    own: &mut Option<String>,
) -> Result<(), AllocError>
    requires functions { length (ids maps.now).functions < 2 ^ 32 }
    requires locals { (function : ℕ) → length (locals_in (ids maps.now) function) < 2 ^ 32 }
    ensures gives { OnOk result (GivesNames (sent_names false (ids maps.now) (synthetic (ids maps.now) (holder types.old funcs.old tables.old memories.old tags.old globals.old elements.old data_segments.old locals.old own.old))) (holder types.old funcs.old tables.old memories.old tags.old globals.old elements.old data_segments.old locals.old own.old) (holder types.new funcs.new tables.new memories.new tags.new globals.new elements.new data_segments.new locals.new own.new)) }
    ensures same { unnamed (holder types.new funcs.new tables.new memories.new tags.new globals.new elements.new data_segments.new locals.new own.new) ≡ unnamed (holder types.old funcs.old tables.old memories.old tags.old globals.old elements.old data_segments.old locals.old own.old) }
{
    let mut number: u32 = 0;
    while let Ok(id) = maps.get_func(number) {
        name_function(
            alloc,
            number,
            id,
            maps,
            types,
            funcs,
            tables,
            memories,
            tags,
            globals,
            elements,
            data_segments,
            locals,
            own,
        )?;
        number += 1;
    }
    Ok(())
}
