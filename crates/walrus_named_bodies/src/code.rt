//! The bodies of a file.

ghost use Rattle.std.specs.Prelude.{◌≡◌, length, IfErr, IfOk, OnOk};
ghost use Rattle.walrus_item_names.specs.walrus_module.walrus_body_writer.walrus_pairing.walrus_index_maps.Views.{ids};
ghost use Rattle.walrus_item_names.specs.walrus_module.walrus_types.Table.{entries, next_id};
ghost use Rattle.walrus_file_bodies.specs.walrus_items_into.walrus_functions_into.Laws.{read_bodies};
ghost use Rattle.walrus_file_bodies.specs.walrus_module_bodies.Steps.{Steps, state};
ghost use Rattle.walrus_file_bodies.specs.walrus_module_bodies.declared.file.FileEnv.{FileEnv};
ghost use Rattle.walrus_file_bodies.specs.Ready.{AreReady, IsFileOf, bodies_in};
ghost use Rattle.walrus_named_bodies.specs.Code.{IsCodeRefusal};

use std::alloc::{AllocError, Global};
use walrus_errors::{ModuleError, Result};
use walrus_index_maps::IndicesToIds;
use walrus_instr::type_table::{ModuleLocals, ModuleTypes};
use walrus_item_names::module::collections::{ModuleFunctions, ModuleMemories, ModuleTags};
use walrus_items_into::functions_into::{FunctionBody, pair_bodies};
use walrus_items_into::module_bodies::{FileEnv, read_bodies};
use walrus_known_sections::{Chunk, Sections};
use wasm_features::WasmFeatures;

// How many types live. They are held in memory, so there are never 2^64.
fn count_types(types: &ModuleTypes) -> Result<usize, AllocError>
    ensures { IfOk result (λ count. count ≡ length (entries types.now)) }
{
    let mut count: usize = 0;
    for _ty in types.iter() {
        match count.checked_add(1) {
            Some(more) => count = more,
            None => return Err(AllocError),
        }
    }
    Ok(count)
}

// The bodies that were read, none where there is no code section.
fn chunks_of<'s, 'a>(sections: &'s Sections<'a>) -> &'s [Chunk<'a>]
    ensures { result.now ≡ read_bodies sections.now.bodies }
{
    match &sections.bodies {
        Some(bodies) => bodies.as_slice(),
        None => &[],
    }
}

/// What stands while the bodies of a file are read into the collections that its sections fill, and each body with its function.
///
/// # Errors
///
/// Want of memory.
pub fn bodies_of<'e, 'a>(
    alloc: Global,
    sections: &Sections<'a>,
    tags: &'e ModuleTags,
    memories: &'e ModuleMemories,
    types: &ModuleTypes,
    functions: &ModuleFunctions,
) -> Result<(FileEnv<'e>, Vec<FunctionBody<'a>>), AllocError>
    requires { length (entries types.now) ≡ next_id types.now }
    ensures file { IfOk result (λ it. IsFileOf sections.now types.now tags.now memories.now it.0) }
    ensures bodies { IfOk result (λ it. it.1.items ≡ bodies_in sections.now functions.now) }
{
    let own_types = count_types(types)?;
    let bodies = pair_bodies(alloc, functions, chunks_of(sections))?;
    let file = FileEnv {
        tags,
        memories,
        own_types,
        has_data_count: sections.data_count.is_some(),
        code_start: sections.code_start,
    };
    Ok((file, bodies))
}

/// Reads the bodies of a file whose items are in these collections.
///
/// # Errors
///
/// The first fault of the first body that has one, want of memory.
pub(crate) fn read_code(
    alloc: Global,
    features: WasmFeatures,
    sections: &Sections<'_>,
    tags: &ModuleTags,
    memories: &ModuleMemories,
    types: &mut ModuleTypes,
    maps: &mut IndicesToIds,
    locals: &mut ModuleLocals,
    functions: &mut ModuleFunctions,
) -> Result<()>
    requires full { length (entries types.old) ≡ next_id types.old }
    requires ready { (file : FileEnv) → IsFileOf sections.now types.old tags.now memories.now file → AreReady file features (bodies_in sections.now functions.old) (state types.old locals.old (ids maps.old) functions.old) }
    ensures read { OnOk result ((file : FileEnv) × IsFileOf sections.now types.old tags.now memories.now file × Steps file features (bodies_in sections.now functions.old) (state types.old locals.old (ids maps.old) functions.old) (state types.new locals.new (ids maps.new) functions.new)) }
    ensures stops { IfErr result (λ error. IsCodeRefusal features sections.now tags.now memories.now (bodies_in sections.now functions.old) (state types.old locals.old (ids maps.old) functions.old) error) }
{
    let (file, bodies) = bodies_of(alloc, sections, tags, memories, &*types, &*functions)?;
    match read_bodies(
        alloc,
        file,
        features,
        types,
        maps,
        locals,
        functions,
        bodies.as_slice(),
    ) {
        Ok(()) => Ok(()),
        Err(fault) => Err(ModuleError::from(fault)),
    }
}
