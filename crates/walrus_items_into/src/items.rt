//! The items of a file.

ghost use Rattle.std.specs.Prelude.{◌≡◌, IfOk, IfErr, OnOk};
ghost use Rattle.std.specs.Bool.{OnFalse, OnTrue};
ghost use Rattle.walrus_read_laws.specs.walrus_tables_into.walrus_sections_into.walrus_index_maps.Views.{ids};
ghost use Rattle.walrus_read_laws.specs.walrus_tables_into.walrus_sections_into.declared.error.IntoError.TheVariants.{Memory};
ghost use Rattle.walrus_read_laws.specs.walrus_tables_into.walrus_sections_into.Becomes.{look_of};
ghost use Rattle.walrus_read_laws.specs.Whole.{LackNothing};
ghost use Rattle.walrus_items_into.specs.Filled.{AreRead, IsFilledFrom, IsHollowFrom, IsNew, WereRead, untyped};
ghost use Rattle.walrus_items_into.specs.Spaces.{spaces};

use crate::numbers::number_items;
use std::alloc::Global;
use walrus_arena::FunctionId;
use walrus_index_maps::IndicesToIds;
use walrus_known_sections::Sections;
use walrus_module_bodies::collections::{
    ModuleData, ModuleElements, ModuleExports, ModuleFunctions, ModuleGlobals, ModuleImports,
    ModuleMemories, ModuleTables, ModuleTags,
};
use walrus_module_bodies::functions_into::add_functions;
use walrus_module_bodies::functions_into::laws::read_functions_stand;
use walrus_module_bodies::types::ModuleTypes;
use walrus_module_bodies::types_into::laws::{new_types_stand, types_name_below};
use walrus_module_bodies::types_into::read_types_into;
use walrus_read_laws::read_sections_lack_nothing;
use walrus_sections::Sections as CustomSections;
use walrus_tables_into::sections_into::{
    IntoError, add_exports, add_imports, add_memories, add_segments, add_tags, read_start,
};
use walrus_tables_into::{add_customs, add_elements, add_globals, add_tables};

// What was read lacks nothing that its own map names: a law, which runs nothing.
fn lacks_nothing(_sections: &Sections<'_>, _maps: &IndicesToIds)
    requires { WereRead _sections.now (ids _maps.now) }
    ensures { LackNothing (look_of (ids _maps.now)) _sections.now }
{
    read_sections_lack_nothing();
    types_name_below();
    new_types_stand();
}

/// Fills the collections of a new module with what was read of a file, and gives its start function, if it has one: types first, then
/// functions, which have no bodies yet, and when each number names its item all that names items. Asks for the sections of a file that
/// was read, and for collections and a map in which nothing was yet. The types are let go of as they are put into the table.
/// Of data segments the bytes are kept if that is wanted.
///
/// # Errors
///
/// Want of memory alone: nothing that was read names what isn't there. Some of the items may be there.
pub fn read_items<B: Drop>(
    alloc: Global,
    sections: &mut Sections<'_>,
    maps: &mut IndicesToIds,
    types: &mut ModuleTypes,
    imports: &mut ModuleImports,
    functions: &mut ModuleFunctions,
    tables: &mut ModuleTables,
    memories: &mut ModuleMemories,
    tags: &mut ModuleTags,
    globals: &mut ModuleGlobals,
    exports: &mut ModuleExports,
    elements: &mut ModuleElements,
    segments: &mut ModuleData,
    customs: &mut CustomSections<B>,
    keeps_bytes: bool,
) -> Result<Option<FunctionId>, IntoError>
    requires read { AreRead sections.old }
    requires new { IsNew (ids maps.old) (spaces types.old imports.old functions.old tables.old memories.old tags.old globals.old exports.old elements.old segments.old customs.old) }
    ensures filled { IfOk result (λ start. OnTrue keeps_bytes (IsFilledFrom sections.old start (ids maps.new) (spaces types.new imports.new functions.new tables.new memories.new tags.new globals.new exports.new elements.new segments.new customs.new))) }
    ensures hollow { IfOk result (λ start. OnFalse keeps_bytes (IsHollowFrom sections.old start (ids maps.new) (spaces types.new imports.new functions.new tables.new memories.new tags.new globals.new exports.new elements.new segments.new customs.new))) }
    ensures left { OnOk result (sections.new ≡ untyped sections.old) }
    ensures refused { IfErr result (λ e. e ≡ Memory) }
{
    types_name_below();
    new_types_stand();
    read_functions_stand();
    read_types_into(&mut sections.types, types, maps)?;
    add_functions(sections.functions.as_slice(), maps, functions)?;
    number_items(&*sections, maps)?;
    lacks_nothing(&*sections, maps);
    add_imports(sections.imports.as_slice(), maps, imports)?;
    add_tables(alloc, sections.tables.as_slice(), maps, tables)?;
    add_memories(sections.memories.as_slice(), memories)?;
    add_tags(sections.tags.as_slice(), maps, tags)?;
    add_globals(alloc, sections.globals.as_slice(), maps, globals)?;
    add_exports(sections.exports.as_slice(), maps, exports)?;
    add_elements(alloc, sections.elements.as_slice(), maps, elements)?;
    add_segments(
        alloc,
        sections.segments.as_slice(),
        maps,
        segments,
        keeps_bytes,
    )?;
    add_customs(sections.customs.as_slice(), customs)?;
    read_start(sections.start, maps)
}
