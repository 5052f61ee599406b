//! A whole module.

ghost use Rattle.std.specs.Prelude.{◌≡◌, IfErr, IfOk, OnErr};
ghost use Rattle.walrus_named_bodies.specs.walrus_item_names.walrus_module.walrus_body_writer.walrus_pairing.walrus_index_maps.Views.{ids};
ghost use Rattle.walrus_named_bodies.specs.walrus_file_bodies.walrus_items_into.Spaces.{spaces};
ghost use Rattle.walrus_named_bodies.specs.Parsed.{IsEmpty, IsModuleOf, read_features};
ghost use Rattle.walrus_parse.specs.Refusals.{IsRefusal};
ghost use Rattle.walrus_parse.specs.Nothing.{HasNothing};

use crate::file::read_file;
use std::alloc::Global;
use walrus_arena::FunctionId;
use walrus_config::ModuleConfig;
use walrus_customs::ModuleProducers;
use walrus_errors::{ModuleError, Result};
use walrus_named_bodies::file_bodies::items_into::laws::{
    filled_modules_are_numbered, named_locals_count,
};
use walrus_named_bodies::file_bodies::items_into::module_env::body_env::instr::type_table::{
    ModuleLocals, ModuleTypes,
};
use walrus_named_bodies::file_bodies::items_into::read_items;
use walrus_named_bodies::file_bodies::items_into::tables_into::sections::Sections as CustomSections;
use walrus_named_bodies::file_bodies::items_into::tables_into::sections_into::index_maps::IndicesToIds;
use walrus_named_bodies::file_bodies::laws::{
    bodies_read_files, bodies_stop_files, filled_modules_are_ready,
};
use walrus_named_bodies::file_bodies::payloads_into::producers_in;
use walrus_named_bodies::item_names::module::Module;
use walrus_named_bodies::item_names::module::collections::{
    ModuleData, ModuleElements, ModuleExports, ModuleFunctions, ModuleGlobals, ModuleImports,
    ModuleMemories, ModuleTables, ModuleTags,
};
use walrus_named_bodies::local_counts::few_are_numbered;
use walrus_named_bodies::read_named;

// Reads a file into the collections of an empty module; the start function and the producers are answered.
fn read_module<B: Drop>(
    alloc: Global,
    config: &ModuleConfig,
    wasm: &[u8],
    types: &mut ModuleTypes,
    imports: &mut ModuleImports,
    functions: &mut ModuleFunctions,
    tables: &mut ModuleTables,
    memories: &mut ModuleMemories,
    tags: &mut ModuleTags,
    globals: &mut ModuleGlobals,
    exports: &mut ModuleExports,
    elements: &mut ModuleElements,
    segments: &mut ModuleData,
    customs: &mut CustomSections<B>,
    locals: &mut ModuleLocals,
    own: &mut Option<String>,
) -> Result<(Option<FunctionId>, ModuleProducers, IndicesToIds)>
    requires { IsEmpty (spaces types.old imports.old functions.old tables.old memories.old tags.old globals.old exports.old elements.old segments.old customs.old) locals.old own.old }
    ensures read { IfOk result (λ told. IsModuleOf config.now wasm.now told.0 told.1 (spaces types.new imports.new functions.new tables.new memories.new tags.new globals.new exports.new elements.new segments.new customs.new) locals.new own.new (ids told.2)) }
    ensures refused { IfErr result (λ error. IsRefusal (read_features config.now) wasm.now error) }
{
    filled_modules_are_ready::<B>();
    filled_modules_are_numbered::<B>();
    named_locals_count::<B>();
    few_are_numbered();
    bodies_read_files::<B>();
    bodies_stop_files::<B>();
    let features = config.features();
    let mut sections = read_file(alloc, features, wasm)?;
    let mut maps = IndicesToIds::new(alloc);
    let start = match read_items(
        alloc,
        &mut sections,
        &mut maps,
        types,
        imports,
        functions,
        tables,
        memories,
        tags,
        globals,
        exports,
        elements,
        segments,
        customs,
        true,
    ) {
        Ok(start) => start,
        Err(_) => return Err(ModuleError::Memory),
    };
    // Each local gets a synthetic name, so each is an item.
    maps.want_all_locals(config.generate_synthetic_names_for_anonymous_items);
    read_named(
        alloc,
        features,
        config.generate_synthetic_names_for_anonymous_items,
        &sections,
        &mut maps,
        types,
        functions,
        tables,
        memories,
        tags,
        globals,
        elements,
        segments,
        locals,
        own,
    )?;
    let producers = producers_in(alloc, sections.customs.as_slice())?;
    Ok((start, producers, maps))
}

// Reads a file into an empty module, which may hold anything where it is refused.
fn fill<B: Drop>(
    alloc: Global,
    config: &ModuleConfig,
    wasm: &[u8],
    module: &mut Module<B>,
) -> Result<IndicesToIds>
    requires { IsEmpty (spaces module.old.types module.old.imports module.old.funcs module.old.tables module.old.memories module.old.tags module.old.globals module.old.exports module.old.elements module.old.data_segments module.old.customs) module.old.locals module.old.name }
    ensures read { IfOk result (λ found. IsModuleOf config.now wasm.now module.new.start module.new.producers (spaces module.new.types module.new.imports module.new.funcs module.new.tables module.new.memories module.new.tags module.new.globals module.new.exports module.new.elements module.new.data_segments module.new.customs) module.new.locals module.new.name (ids found)) }
    ensures flags { module.new.config ≡ module.old.config }
    ensures refused { IfErr result (λ error. IsRefusal (read_features config.now) wasm.now error) }
{
    let (start, producers, found) = read_module(
        alloc,
        config,
        wasm,
        &mut module.types,
        &mut module.imports,
        &mut module.funcs,
        &mut module.tables,
        &mut module.memories,
        &mut module.tags,
        &mut module.globals,
        &mut module.exports,
        &mut module.elements,
        &mut module.data_segments,
        &mut module.customs,
        &mut module.locals,
        &mut module.name,
    )?;
    module.start = start;
    module.producers = producers;
    Ok(found)
}

/// Reads the bytes of a module (Core Specification, binary format: modules) into an empty one, with the features that its flags ask for,
/// or refuses them. All items of the file are in it, under ids that are their numbers, but for types, of which equal ones merge; each
/// body is in normal form, with the types that handlers of a legacy `try` need; names and producers are those of the file, with the
/// entry of this tool. The flags are those of the module. Answers which id each index of the file has.
///
/// # Errors
///
/// `InputTooLong` past 2^30 bytes; else the first fault of the file, at its place; want of memory, in place of what would come behind the header.
/// Nothing is in the module then, and its flags stay.
pub fn parse_into<B: Drop>(
    alloc: Global,
    wasm: &[u8],
    module: &mut Module<B>,
) -> Result<IndicesToIds>
    requires { IsEmpty (spaces module.old.types module.old.imports module.old.funcs module.old.tables module.old.memories module.old.tags module.old.globals module.old.exports module.old.elements module.old.data_segments module.old.customs) module.old.locals module.old.name }
    ensures read { IfOk result (λ found. IsModuleOf module.old.config wasm.now module.new.start module.new.producers (spaces module.new.types module.new.imports module.new.funcs module.new.tables module.new.memories module.new.tags module.new.globals module.new.exports module.new.elements module.new.data_segments module.new.customs) module.new.locals module.new.name (ids found)) }
    ensures flags { module.new.config ≡ module.old.config }
    ensures refused { IfErr result (λ error. IsRefusal (read_features module.old.config) wasm.now error) }
    ensures left { OnErr result (HasNothing module.new) }
{
    let config = *module.config();
    match fill(alloc, &config, wasm, module) {
        Ok(found) => Ok(found),
        Err(error) => {
            *module = Module::with_config(alloc, config);
            Err(error)
        }
    }
}
