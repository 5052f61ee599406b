//! Exports, and the start function.

ghost use Rattle.std.specs.Prelude.{◌≡◌, IfOk, IfErr, OnOk, OnErr};
ghost use Rattle.std.specs.List.{Any};
ghost use Rattle.walrus_arena.specs.Arena.{next_id};
ghost use Rattle.walrus_collections.specs.Added.{Adds};
ghost use Rattle.walrus_index_maps.specs.Views.{ids};
ghost use Rattle.walrus_sections_into.specs.Becomes.{look_of};
ghost use Rattle.walrus_sections_into.specs.Slots.{Filled, FilledInPart};
ghost use Rattle.walrus_sections_into.specs.Exports.{IsExportOf, ItemBecomes, StartBecomes};
ghost use Rattle.walrus_sections_into.specs.Lacks.{ExportLacks, ItemLacks, StartLacks};
ghost use Rattle.walrus_sections_into.specs.declared.error.IntoError.TheVariants.{Unknown};

use crate::error::IntoError;
use crate::ids::{function_id, global_id, memory_id, table_id, tag_id};
use walrus_arena::FunctionId;
use walrus_collections::ModuleExports;
use walrus_collections::module_items::ExportItem;
use walrus_index_maps::IndicesToIds;
use walrus_known_sections::Export;
use wasm_formats::Space;

// What is given out.
fn read_item(space: Space, number: u32, maps: &IndicesToIds) -> Result<ExportItem, IntoError>
    ensures becomes { IfOk result (ItemBecomes (look_of (ids maps.now)) space number) }
    ensures unknown { IfErr result (λ e. e ≡ Unknown → ItemLacks (look_of (ids maps.now)) space number) }
{
    match space {
        Space::Function => {
            let id = function_id(number, maps)?;
            Ok(ExportItem::Function(id))
        }
        Space::Table => {
            let id = table_id(number, maps)?;
            Ok(ExportItem::Table(id))
        }
        Space::Memory => {
            let id = memory_id(number, maps)?;
            Ok(ExportItem::Memory(id))
        }
        Space::Global => {
            let id = global_id(number, maps)?;
            Ok(ExportItem::Global(id))
        }
        Space::Tag => {
            let id = tag_id(number, maps)?;
            Ok(ExportItem::Tag(id))
        }
        _ => Err(IntoError::Unknown),
    }
}

fn add_export(
    export: &Export<'_>,
    maps: &IndicesToIds,
    into: &mut ModuleExports,
) -> Result<(), IntoError>
    ensures added { OnOk result (Adds (IsExportOf (look_of (ids maps.now)) (next_id into.old) export.now) into.old into.new) }
    ensures refused { OnErr result (into.new ≡ into.old) }
    ensures unknown { IfErr result (λ e. e ≡ Unknown → ExportLacks (look_of (ids maps.now)) export.now) }
{
    let item = read_item(export.space, export.index, maps)?;
    into.add(export.name, item)?;
    Ok(())
}

/// Adds the exports, in their order.
///
/// # Errors
///
/// Want of memory; `Unknown` only where one names nothing. The first of the exports may be there.
pub fn add_exports(
    exports: &[Export<'_>],
    maps: &IndicesToIds,
    into: &mut ModuleExports,
) -> Result<(), IntoError>
    ensures added { OnOk result (Filled (IsExportOf (look_of (ids maps.now))) exports.now into.old.slots into.new.slots) }
    ensures in_part { OnErr result (FilledInPart (IsExportOf (look_of (ids maps.now))) exports.now into.old.slots into.new.slots) }
    ensures unknown { IfErr result (λ e. e ≡ Unknown → Any (ExportLacks (look_of (ids maps.now))) exports.now) }
{
    for export in exports {
        add_export(export, maps, into)?;
    }
    Ok(())
}

/// The start function, if there is one.
///
/// # Errors
///
/// `Unknown`, where the number names nothing.
pub fn read_start(start: Option<u32>, maps: &IndicesToIds) -> Result<Option<FunctionId>, IntoError>
    ensures becomes { IfOk result (StartBecomes (look_of (ids maps.now)) start) }
    ensures unknown { IfErr result (λ e. (e ≡ Unknown) × StartLacks (look_of (ids maps.now)) start) }
{
    match start {
        Some(number) => {
            let id = function_id(number, maps)?;
            Ok(Some(id))
        }
        None => Ok(None),
    }
}
