//! Names are given to the items of a module, one after another.

ghost use Rattle.std.specs.Prelude.{◌≡◌, [], ◌∷◌, ◌++◌, map, OnOk, string_bytes};
ghost use Rattle.wasm_name_payloads.specs.Names.{given};
ghost use Rattle.walrus_index_maps.specs.Views.{ids};
ghost use Rattle.walrus_payload_readers.specs.Bearers.{given_of};
ghost use Rattle.walrus_item_names.specs.Sent.{is_skipped, sent_name, sent_names};
ghost use Rattle.walrus_item_names.specs.Holder.{holder};
ghost use Rattle.walrus_item_names.specs.Names.{unnamed};
ghost use Rattle.walrus_item_names.specs.Gives.{GivesNames};
ghost use Rattle.walrus_item_names.specs.Targets.{target_bearer};

use crate::call::{call_item, call_local, call_module, call_type};
use crate::target::{Target, find};
use std::alloc::{AllocError, Global};
use walrus_index_maps::IndicesToIds;
use walrus_module::collections::{
    ModuleData, ModuleElements, ModuleFunctions, ModuleGlobals, ModuleMemories, ModuleTables,
    ModuleTags,
};
use walrus_payload_readers::{Bearer, Given};
use walrus_types::{ModuleLocals, ModuleTypes};

// What is there gets this name.
#[tactic(auto, using(crate::specs::Gives::module_given, crate::specs::Gives::type_given, crate::specs::Gives::function_given, crate::specs::Gives::table_given, crate::specs::Gives::memory_given, crate::specs::Gives::tag_given, crate::specs::Gives::global_given, crate::specs::Gives::element_given, crate::specs::Gives::data_given, crate::specs::Gives::local_given))]
pub(crate) fn give(
    target: Target,
    name: String,
    types: &mut ModuleTypes,
    funcs: &mut ModuleFunctions,
    tables: &mut ModuleTables,
    memories: &mut ModuleMemories,
    tags: &mut ModuleTags,
    globals: &mut ModuleGlobals,
    elements: &mut ModuleElements,
    data_segments: &mut ModuleData,
    locals: &mut ModuleLocals,
    own: &mut Option<String>,
)
    ensures gives { GivesNames (given (target_bearer target) (string_bytes name) ∷ []) (holder types.old funcs.old tables.old memories.old tags.old globals.old elements.old data_segments.old locals.old own.old) (holder types.new funcs.new tables.new memories.new tags.new globals.new elements.new data_segments.new locals.new own.new) }
{
    match target {
        Target::Module => call_module(own, name),
        Target::Type(id) => call_type(types, id, name),
        Target::Function(id) => call_item(funcs, id, name),
        Target::Table(id) => call_item(tables, id, name),
        Target::Memory(id) => call_item(memories, id, name),
        Target::Tag(id) => call_item(tags, id, name),
        Target::Global(id) => call_item(globals, id, name),
        Target::Element(id) => call_item(elements, id, name),
        Target::Data(id) => call_item(data_segments, id, name),
        Target::Local(id) => call_local(locals, id, name),
    }
}

// Whether it is an empty name of a local, where these are skipped.
fn is_skipped(skips_empty: bool, given: &Given<'_>) -> bool
    ensures { result ≡ is_skipped skips_empty (given_of given.now) }
{
    let is_local = matches!(given.bearer, Bearer::Local(_, _));
    skips_empty && is_local && given.name.is_empty()
}

// What this name is given to gets it, if it is there.
#[tactic(auto, using(crate::proofs::Given::gives_skipped, crate::proofs::Given::gives_missing, crate::proofs::Given::gives_sent))]
fn give_name(
    alloc: Global,
    given: &Given<'_>,
    skips_empty: bool,
    maps: &IndicesToIds,
    types: &mut ModuleTypes,
    funcs: &mut ModuleFunctions,
    tables: &mut ModuleTables,
    memories: &mut ModuleMemories,
    tags: &mut ModuleTags,
    globals: &mut ModuleGlobals,
    elements: &mut ModuleElements,
    data_segments: &mut ModuleData,
    locals: &mut ModuleLocals,
    own: &mut Option<String>,
) -> Result<(), AllocError>
    ensures gives { OnOk result (GivesNames (sent_name skips_empty (ids maps.now) (given_of given.now)) (holder types.old funcs.old tables.old memories.old tags.old globals.old elements.old data_segments.old locals.old own.old) (holder types.new funcs.new tables.new memories.new tags.new globals.new elements.new data_segments.new locals.new own.new)) }
    ensures same { unnamed (holder types.new funcs.new tables.new memories.new tags.new globals.new elements.new data_segments.new locals.new own.new) ≡ unnamed (holder types.old funcs.old tables.old memories.old tags.old globals.old elements.old data_segments.old locals.old own.old) }
{
    if is_skipped(skips_empty, given) {
        return Ok(());
    }
    let Some(target) = find(given.bearer, maps) else {
        return Ok(());
    };
    let name = String::from_str(alloc, given.name)?;
    give(
        target,
        name,
        types,
        funcs,
        tables,
        memories,
        tags,
        globals,
        elements,
        data_segments,
        locals,
        own,
    );
    Ok(())
}

/// Gives the names of a file to the items that its indices name, one after another, so that the last one of several wins; a type
/// has the last one of all that it stands for. A name of what isn't there is left out, and so is an empty name of a local where
/// these are skipped. All else stays as it was.
///
/// # Errors
///
/// Want of memory. Some names may have been given.
#[tactic(auto, using(crate::specs::Gives::gives_none))]
pub fn give_names(
    alloc: Global,
    names: &[Given<'_>],
    skips_empty: bool,
    maps: &IndicesToIds,
    types: &mut ModuleTypes,
    funcs: &mut ModuleFunctions,
    tables: &mut ModuleTables,
    memories: &mut ModuleMemories,
    tags: &mut ModuleTags,
    globals: &mut ModuleGlobals,
    elements: &mut ModuleElements,
    data_segments: &mut ModuleData,
    locals: &mut ModuleLocals,
    own: &mut Option<String>,
) -> Result<(), AllocError>
    ensures gives { OnOk result (GivesNames (sent_names skips_empty (ids maps.now) (map given_of names.now)) (holder types.old funcs.old tables.old memories.old tags.old globals.old elements.old data_segments.old locals.old own.old) (holder types.new funcs.new tables.new memories.new tags.new globals.new elements.new data_segments.new locals.new own.new)) }
    ensures same { unnamed (holder types.new funcs.new tables.new memories.new tags.new globals.new elements.new data_segments.new locals.new own.new) ≡ unnamed (holder types.old funcs.old tables.old memories.old tags.old globals.old elements.old data_segments.old locals.old own.old) }
{
    for given in names {
        give_name(
            alloc,
            given,
            skips_empty,
            maps,
            types,
            funcs,
            tables,
            memories,
            tags,
            globals,
            elements,
            data_segments,
            locals,
            own,
        )?;
    }
    Ok(())
}
