//! Laws of what was read of a file and put into a module: it fills the collections, and means what was read, renamed.

ghost use Rattle.walrus_named_bodies.specs.walrus_file_bodies.walrus_items_into.walrus_module_bodies.walrus_body_trees.walrus_meaning.walrus_local_function.walrus_body_locals.wasm_grammar.Modules.{Custom};
ghost use Rattle.walrus_parse_laws.specs.Functions.{FunctionsFill};
ghost use Rattle.walrus_parse_laws.specs.Meaning.{ImportsMean, FunctionsMean, TablesMean, MemoriesMean, TagsMean, GlobalsMean, ExportsMean, StartMeans, ElementsMean, SegmentsMean, CustomsMean, ModuleMeans, OrderedStay};

/// Functions that are added fill the slots behind those that were there with what was read: each of the type that is named, brought by
/// the same import, or without a body yet (Core Specification, binary format: function section).
pub fn functions_fill()
    ensures { FunctionsFill }
{}

/// In a map that has the items of each space in their order each number is its own id; of types nothing is asked.
pub fn ordered_stay()
    ensures { OrderedStay }
{}

/// Functions that fill a collection that began empty mean those of the file, each with the id of what its type's number names; bodies
/// aside, which no side has yet (Core Specification, binary format: modules). So it is in each space.
pub fn functions_mean()
    ensures { FunctionsMean }
{}

/// Imports mean those of the file.
pub fn imports_mean()
    ensures { ImportsMean }
{}

/// Tables mean those of the file: types inside the types of their elements, and inside initialisers, have the ids that their numbers name.
pub fn tables_mean()
    ensures { TablesMean }
{}

/// Memories mean those of the file.
pub fn memories_mean()
    ensures { MemoriesMean }
{}

/// Tags mean those of the file, each with the id of what its type's number names.
pub fn tags_mean()
    ensures { TagsMean }
{}

/// Globals mean those of the file: types inside their types and first values have the ids that their numbers name.
pub fn globals_mean()
    ensures { GlobalsMean }
{}

/// Exports mean those of the file.
pub fn exports_mean()
    ensures { ExportsMean }
{}

/// The start function is that of the file.
pub fn start_means()
    ensures { StartMeans }
{}

/// Element segments mean those of the file: types inside their types, offsets and expressions have the ids that their numbers name.
pub fn elements_mean()
    ensures { ElementsMean }
{}

/// Data segments mean those of the file: types inside offsets have the ids that their numbers name.
pub fn segments_mean()
    ensures { SegmentsMean }
{}

/// Custom sections are those of the file, but for those that name items or tell producers.
pub fn customs_mean<B>()
    ensures { (given : B → Custom) → CustomsMean given }
{}

/// A module whose types and collections began empty and were filled with what was read means the file's module, where types alone have
/// other ids and merged ones are left out; without bodies, and without custom sections, which `means` doesn't have.
pub fn module_means()
    ensures { ModuleMeans }
{
    walrus_named_bodies::spelled_modules::laws::read_sections_are_spelled();
    walrus_named_bodies::file_bodies::items_into::functions_into::types_into::laws::types_name_below();
    crate::filled_groups::read_types_are_declared();
    crate::filled_groups::groups_mean();
}
