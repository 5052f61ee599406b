//! The names of a module that was read.

ghost use Rattle.std.specs.Prelude.{OnOk};
ghost use Rattle.walrus_item_names.specs.walrus_module.walrus_local_function.walrus_body_locals.wasm_grammar.Modules.{Module};
ghost use Rattle.walrus_payload_readers.specs.wasm_name_payloads.Names.{names_of};
ghost use Rattle.walrus_item_names.specs.walrus_module.walrus_body_writer.walrus_pairing.walrus_index_maps.Views.{ids};
ghost use Rattle.walrus_item_names.specs.Gives.{GivesNames};
ghost use Rattle.walrus_item_names.specs.Holder.{holder};
ghost use Rattle.walrus_local_counts.specs.Locals.{HasFew};
ghost use Rattle.walrus_file_bodies.specs.walrus_items_into.walrus_payloads_into.Numbered.{IsNumbered};
ghost use Rattle.walrus_file_bodies.specs.walrus_items_into.walrus_payloads_into.Customs.{AreCustoms};
ghost use Rattle.walrus_named_bodies.specs.Named.{all_names, made_names};

use std::alloc::{AllocError, Global};
use walrus_index_maps::IndicesToIds;
use walrus_instr::type_table::{ModuleLocals, ModuleTypes};
use walrus_item_names::module::collections::{
    ModuleData, ModuleElements, ModuleFunctions, ModuleGlobals, ModuleMemories, ModuleTables,
    ModuleTags,
};
use walrus_item_names::{give_names, give_synthetic_names};
use walrus_known_sections::Custom;
use walrus_payloads_into::names_in;

// Synthetic names, if they are wanted.
fn make_names(
    alloc: Global,
    synthetic: bool,
    maps: &IndicesToIds,
    types: &mut ModuleTypes,
    funcs: &mut ModuleFunctions,
    tables: &mut ModuleTables,
    memories: &mut ModuleMemories,
    tags: &mut ModuleTags,
    globals: &mut ModuleGlobals,
    elements: &mut ModuleElements,
    data_segments: &mut ModuleData,
    locals: &mut ModuleLocals,
    own: &mut Option<String>,
) -> Result<(), AllocError>
    requires { HasFew (ids maps.now) }
    ensures { OnOk result (GivesNames (made_names synthetic (ids maps.now) (holder types.old funcs.old tables.old memories.old tags.old globals.old elements.old data_segments.old locals.old own.old)) (holder types.old funcs.old tables.old memories.old tags.old globals.old elements.old data_segments.old locals.old own.old) (holder types.new funcs.new tables.new memories.new tags.new globals.new elements.new data_segments.new locals.new own.new)) }
{
    if synthetic {
        return give_synthetic_names(
            alloc,
            maps,
            types,
            funcs,
            tables,
            memories,
            tags,
            globals,
            elements,
            data_segments,
            locals,
            own,
        );
    }
    Ok(())
}

/// Names what has a number: synthetic names first, if they are wanted, then those of the file's sections `name`.
///
/// # Errors
///
/// Want of memory.
pub fn name_items(
    alloc: Global,
    synthetic: bool,
    customs: &[Custom<'_>],
    maps: &IndicesToIds,
    types: &mut ModuleTypes,
    funcs: &mut ModuleFunctions,
    tables: &mut ModuleTables,
    memories: &mut ModuleMemories,
    tags: &mut ModuleTags,
    globals: &mut ModuleGlobals,
    elements: &mut ModuleElements,
    data_segments: &mut ModuleData,
    locals: &mut ModuleLocals,
    own: &mut Option<String>,
) -> Result<(), AllocError>
    requires { HasFew (ids maps.now) }
    ensures { OnOk result ((m : Module) → IsNumbered m (ids maps.now) → AreCustoms m customs.now → GivesNames (all_names synthetic (ids maps.now) (holder types.old funcs.old tables.old memories.old tags.old globals.old elements.old data_segments.old locals.old own.old) (names_of m)) (holder types.old funcs.old tables.old memories.old tags.old globals.old elements.old data_segments.old locals.old own.old) (holder types.new funcs.new tables.new memories.new tags.new globals.new elements.new data_segments.new locals.new own.new)) }
{
    make_names(
        alloc,
        synthetic,
        maps,
        types,
        funcs,
        tables,
        memories,
        tags,
        globals,
        elements,
        data_segments,
        locals,
        own,
    )?;
    let names = names_in(alloc, customs, maps)?;
    give_names(
        alloc,
        names.as_slice(),
        synthetic,
        maps,
        types,
        funcs,
        tables,
        memories,
        tags,
        globals,
        elements,
        data_segments,
        locals,
        own,
    )
}
