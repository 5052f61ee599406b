//! Tags of exceptions.

ghost use Rattle.std.specs.Prelude.{◌≡◌, IfErr, OnOk, OnErr};
ghost use Rattle.std.specs.List.{Any};
ghost use Rattle.walrus_arena.specs.Arena.{next_id};
ghost use Rattle.walrus_collections.specs.Added.{Adds};
ghost use Rattle.walrus_index_maps.specs.Views.{ids};
ghost use Rattle.walrus_sections_into.specs.Becomes.{look_of};
ghost use Rattle.walrus_sections_into.specs.Lacks.{TagLacks};
ghost use Rattle.walrus_sections_into.specs.Slots.{Filled, FilledInPart};
ghost use Rattle.walrus_sections_into.specs.Tags.{IsTagOf};
ghost use Rattle.walrus_sections_into.specs.declared.error.IntoError.TheVariants.{Unknown};

use crate::error::IntoError;
use crate::ids::{import_id, type_id};
use walrus_collections::ModuleTags;
use walrus_index_maps::IndicesToIds;
use walrus_known_sections::Tag;

fn add_tag(tag: &Tag, maps: &IndicesToIds, into: &mut ModuleTags) -> Result<(), IntoError>
    ensures added { OnOk result (Adds (IsTagOf (look_of (ids maps.now)) (next_id into.old) tag.now) into.old into.new) }
    ensures refused { OnErr result (into.new ≡ into.old) }
    ensures unknown { IfErr result (λ e. e ≡ Unknown → TagLacks (look_of (ids maps.now)) tag.now) }
{
    let ty = type_id(tag.ty, maps)?;
    match tag.import {
        Some(import) => {
            let import = import_id(import)?;
            into.add_import(ty, import)?;
            Ok(())
        }
        None => {
            into.add(ty)?;
            Ok(())
        }
    }
}

/// Adds the tags, imported ones too, in their order.
///
/// # Errors
///
/// Want of memory; `Unknown` only where one names no type. The first of the tags may be there.
pub fn add_tags(tags: &[Tag], maps: &IndicesToIds, into: &mut ModuleTags) -> Result<(), IntoError>
    ensures added { OnOk result (Filled (IsTagOf (look_of (ids maps.now))) tags.now into.old.slots into.new.slots) }
    ensures in_part { OnErr result (FilledInPart (IsTagOf (look_of (ids maps.now))) tags.now into.old.slots into.new.slots) }
    ensures unknown { IfErr result (λ e. e ≡ Unknown → Any (TagLacks (look_of (ids maps.now))) tags.now) }
{
    for tag in tags {
        add_tag(tag, maps, into)?;
    }
    Ok(())
}
