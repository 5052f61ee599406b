//! The bodies of a file, and then the names of its items.

ghost use Rattle.std.specs.Prelude.{◌≡◌, length, IfErr, OnOk};
ghost use Rattle.walrus_item_names.specs.Holder.{holder};
ghost use Rattle.walrus_item_names.specs.walrus_module.walrus_body_writer.walrus_pairing.walrus_index_maps.Views.{ids};
ghost use Rattle.walrus_item_names.specs.walrus_module.walrus_types.Table.{entries, next_id};
ghost use Rattle.walrus_file_bodies.specs.walrus_module_bodies.Steps.{State, Steps, state};
ghost use Rattle.walrus_file_bodies.specs.walrus_module_bodies.declared.file.FileEnv.{FileEnv};
ghost use Rattle.walrus_file_bodies.specs.Ready.{AreReady, IsFileOf, bodies_in};
ghost use Rattle.walrus_local_counts.specs.Locals.{HasFew};
ghost use Rattle.walrus_named_bodies.specs.Behind.{AreNamed};
ghost use Rattle.walrus_named_bodies.specs.Code.{IsCodeRefusal};

use crate::code::read_code;
use crate::names::name_items;
use std::alloc::Global;
use walrus_errors::Result;
use walrus_index_maps::IndicesToIds;
use walrus_instr::type_table::{ModuleLocals, ModuleTypes};
use walrus_item_names::module::collections::{
    ModuleData, ModuleElements, ModuleFunctions, ModuleGlobals, ModuleMemories, ModuleTables,
    ModuleTags,
};
use walrus_known_sections::Sections;
use wasm_features::WasmFeatures;

/// Reads the bodies of a file whose items are in these collections, and then names what has a number: synthetic names come first, if they
/// are wanted, and then those of the file's sections `name`. Names come behind the bodies, as these give out locals and types.
///
/// # Errors
///
/// The first fault of the first body that has one, want of memory. No fault of a section `name` is one.
pub fn read_named(
    alloc: Global,
    features: WasmFeatures,
    synthetic: bool,
    sections: &Sections<'_>,
    maps: &mut IndicesToIds,
    types: &mut ModuleTypes,
    functions: &mut ModuleFunctions,
    tables: &mut ModuleTables,
    memories: &mut ModuleMemories,
    tags: &mut ModuleTags,
    globals: &mut ModuleGlobals,
    elements: &mut ModuleElements,
    segments: &mut ModuleData,
    locals: &mut ModuleLocals,
    own: &mut Option<String>,
) -> Result<()>
    requires full { length (entries types.old) ≡ next_id types.old }
    requires ready { (file : FileEnv) → IsFileOf sections.now types.old tags.old memories.old file → AreReady file features (bodies_in sections.now functions.old) (state types.old locals.old (ids maps.old) functions.old) }
    requires few { (file : FileEnv) (new : State) → IsFileOf sections.now types.old tags.old memories.old file → Steps file features (bodies_in sections.now functions.old) (state types.old locals.old (ids maps.old) functions.old) new → HasFew new.ids }
    ensures read { OnOk result (AreNamed features synthetic sections.now (ids maps.old) (holder types.old functions.old tables.old memories.old tags.old globals.old elements.old segments.old locals.old own.old) (ids maps.new) (holder types.new functions.new tables.new memories.new tags.new globals.new elements.new segments.new locals.new own.new)) }
    ensures stops { IfErr result (λ error. IsCodeRefusal features sections.now tags.old memories.old (bodies_in sections.now functions.old) (state types.old locals.old (ids maps.old) functions.old) error) }
{
    read_code(
        alloc, features, sections, tags, memories, types, maps, locals, functions,
    )?;
    name_items(
        alloc,
        synthetic,
        sections.customs.as_slice(),
        maps,
        types,
        functions,
        tables,
        memories,
        tags,
        globals,
        elements,
        segments,
        locals,
        own,
    )?;
    Ok(())
}
