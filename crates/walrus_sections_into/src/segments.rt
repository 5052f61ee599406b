//! Data segments.

ghost use Rattle.std.specs.Prelude.{◌≡◌, [], IfOk, IfErr, OnOk, OnErr};
ghost use Rattle.std.specs.Bool.{OnFalse, OnTrue};
ghost use Rattle.std.specs.List.{Any};
ghost use Rattle.walrus_arena.specs.Arena.{next_id};
ghost use Rattle.walrus_collections.specs.Added.{Adds};
ghost use Rattle.walrus_index_maps.specs.Views.{ids};
ghost use Rattle.walrus_sections_into.specs.Becomes.{look_of};
ghost use Rattle.walrus_sections_into.specs.Lacks.{DataLacks, PlaceLacks};
ghost use Rattle.walrus_sections_into.specs.Slots.{Filled, FilledInPart};
ghost use Rattle.walrus_sections_into.specs.Segments.{IsHeldOf, ModeBecomes};
ghost use Rattle.walrus_sections_into.specs.declared.error.IntoError.TheVariants.{Memory, Unknown};

use crate::error::IntoError;
use crate::exprs::read_expr;
use crate::ids::memory_id;
use std::alloc::Global;
use walrus_collections::ModuleData;
use walrus_collections::module_items::DataKind;
use walrus_index_maps::IndicesToIds;
use walrus_known_sections::{Data, Mode};

// When it is copied.
fn read_mode(alloc: Global, mode: &Mode, maps: &IndicesToIds) -> Result<DataKind, IntoError>
    ensures becomes { IfOk result (ModeBecomes (look_of (ids maps.now)) mode.now) }
    ensures unknown { IfErr result (λ e. e ≡ Unknown → PlaceLacks (look_of (ids maps.now)) mode.now) }
{
    match mode {
        Mode::Passive => Ok(DataKind::Passive),
        Mode::Declared => Err(IntoError::Unknown),
        Mode::Active(memory, offset) => {
            let memory = memory_id(*memory, maps)?;
            let offset = read_expr(alloc, offset.as_slice(), maps)?;
            Ok(DataKind::Active { memory, offset })
        }
    }
}

fn copied(alloc: Global, bytes: &[u8]) -> Result<Vec<u8>, IntoError>
    ensures copied { IfOk result (λ copy. copy.items ≡ bytes.now) }
    ensures refused { IfErr result (λ e. e ≡ Memory) }
{
    let mut copy = Vec::new(alloc);
    copy.extend_from_slice(bytes)?;
    Ok(copy)
}

// A segment's bytes, if they are kept.
fn kept(alloc: Global, value: Vec<u8>, keeps_bytes: bool) -> Vec<u8>
    ensures kept { OnTrue keeps_bytes (result ≡ value) }
    ensures empty { OnFalse keeps_bytes (result.items ≡ []) }
{
    if keeps_bytes {
        return value;
    }
    Vec::new(alloc)
}

// The bytes are copied in any case: where they aren't kept, the segment that has them stands in the proof alone.
fn add_segment(
    alloc: Global,
    segment: &Data<'_>,
    maps: &IndicesToIds,
    into: &mut ModuleData,
    keeps_bytes: bool,
) -> Result<(), IntoError>
    ensures added { OnOk result (Adds (IsHeldOf keeps_bytes (look_of (ids maps.now)) (next_id into.old) segment.now) into.old into.new) }
    ensures refused { OnErr result (into.new ≡ into.old) }
    ensures unknown { IfErr result (λ e. e ≡ Unknown → DataLacks (look_of (ids maps.now)) segment.now) }
{
    let kind = read_mode(alloc, &segment.mode, maps)?;
    let value = copied(alloc, segment.bytes)?;
    into.add(kind, kept(alloc, value, keeps_bytes))?;
    Ok(())
}

/// Adds the data segments, in their order, with their bytes or, where these aren't kept, with none.
///
/// # Errors
///
/// Want of memory; `Unknown` only where one names no memory or is declared, or an operator of an offset names nothing or isn't
/// constant. The first of the segments may be there.
pub fn add_segments(
    alloc: Global,
    segments: &[Data<'_>],
    maps: &IndicesToIds,
    into: &mut ModuleData,
    keeps_bytes: bool,
) -> Result<(), IntoError>
    ensures added { OnOk result (Filled (IsHeldOf keeps_bytes (look_of (ids maps.now))) segments.now into.old.slots into.new.slots) }
    ensures in_part { OnErr result (FilledInPart (IsHeldOf keeps_bytes (look_of (ids maps.now))) segments.now into.old.slots into.new.slots) }
    ensures unknown { IfErr result (λ e. e ≡ Unknown → Any (DataLacks (look_of (ids maps.now))) segments.now) }
{
    for segment in segments {
        add_segment(alloc, segment, maps, into, keeps_bytes)?;
    }
    Ok(())
}
