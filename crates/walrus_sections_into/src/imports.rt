//! Imports.

ghost use Rattle.std.specs.Prelude.{◌≡◌, IfOk, IfErr, OnOk, OnErr};
ghost use Rattle.std.specs.List.{Any};
ghost use Rattle.walrus_arena.specs.Arena.{next_id};
ghost use Rattle.walrus_collections.specs.Added.{Adds};
ghost use Rattle.walrus_index_maps.specs.Views.{ids};
ghost use Rattle.walrus_sections_into.specs.Becomes.{look_of};
ghost use Rattle.walrus_sections_into.specs.Slots.{Filled, FilledInPart};
ghost use Rattle.walrus_sections_into.specs.Imports.{IsImportOf, KindBecomes};
ghost use Rattle.walrus_sections_into.specs.Lacks.{ImportLacks, ItemLacks};
ghost use Rattle.walrus_sections_into.specs.declared.error.IntoError.TheVariants.{Unknown};

use crate::error::IntoError;
use crate::ids::{function_id, global_id, memory_id, small, table_id, tag_id};
use walrus_collections::ModuleImports;
use walrus_collections::module_items::ImportKind;
use walrus_index_maps::IndicesToIds;
use walrus_known_sections::Import;
use wasm_formats::Space;

// What is brought.
fn read_kind(space: Space, number: u32, maps: &IndicesToIds) -> Result<ImportKind, IntoError>
    ensures becomes { IfOk result (KindBecomes (look_of (ids maps.now)) space number) }
    ensures unknown { IfErr result (λ e. e ≡ Unknown → ItemLacks (look_of (ids maps.now)) space number) }
{
    match space {
        Space::Function => {
            let id = function_id(number, maps)?;
            Ok(ImportKind::Function(id))
        }
        Space::Table => {
            let id = table_id(number, maps)?;
            Ok(ImportKind::Table(id))
        }
        Space::Memory => {
            let id = memory_id(number, maps)?;
            Ok(ImportKind::Memory(id))
        }
        Space::Global => {
            let id = global_id(number, maps)?;
            Ok(ImportKind::Global(id))
        }
        Space::Tag => {
            let id = tag_id(number, maps)?;
            Ok(ImportKind::Tag(id))
        }
        _ => Err(IntoError::Unknown),
    }
}

fn add_import(
    import: &Import<'_>,
    maps: &IndicesToIds,
    into: &mut ModuleImports,
) -> Result<(), IntoError>
    ensures added { OnOk result (Adds (IsImportOf (look_of (ids maps.now)) (next_id into.old) import.now) into.old into.new) }
    ensures refused { OnErr result (into.new ≡ into.old) }
    ensures unknown { IfErr result (λ e. e ≡ Unknown → ImportLacks (look_of (ids maps.now)) import.now) }
{
    let number = small(import.index)?;
    let kind = read_kind(import.space, number, maps)?;
    into.add(import.module, import.name, kind)?;
    Ok(())
}

/// Adds the imports, in their order. The items that they bring are to name them.
///
/// # Errors
///
/// Want of memory; `Unknown` only where one names nothing. The first of the imports may be there.
pub fn add_imports(
    imports: &[Import<'_>],
    maps: &IndicesToIds,
    into: &mut ModuleImports,
) -> Result<(), IntoError>
    ensures added { OnOk result (Filled (IsImportOf (look_of (ids maps.now))) imports.now into.old.slots into.new.slots) }
    ensures in_part { OnErr result (FilledInPart (IsImportOf (look_of (ids maps.now))) imports.now into.old.slots into.new.slots) }
    ensures unknown { IfErr result (λ e. e ≡ Unknown → Any (ImportLacks (look_of (ids maps.now))) imports.now) }
{
    for import in imports {
        add_import(import, maps, into)?;
    }
    Ok(())
}
