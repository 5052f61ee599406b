//! Globals (Core Specification, globals).

ghost use Rattle.std.specs.Prelude.{◌≡◌, ◌∷◌, ◌++◌, [], false, Some, None, IfOk, IfErr, OnOk, OnErr};
ghost use Rattle.std.specs.List.{Any};
ghost use Rattle.walrus_sections_into.specs.walrus_collections.Added.{Adds};
ghost use Rattle.walrus_sections_into.specs.walrus_forms.walrus_arena.Arena.{next_id};
ghost use Rattle.walrus_sections_into.specs.walrus_index_maps.Views.{ids};
ghost use Rattle.walrus_sections_into.specs.Becomes.{look_of};
ghost use Rattle.walrus_sections_into.specs.Slots.{Filled, FilledInPart};
ghost use Rattle.walrus_sections_into.specs.declared.error.IntoError.TheVariants.{Unknown};
ghost use Rattle.walrus_tables_into.specs.Globals.{IsGlobalOf, OriginBecomes, GlobalLacks, OriginLacks};

use crate::types::read_value;
use std::alloc::{AllocError, Global as Alloc};
use walrus_section_values::{Global, GlobalOrigin};
use walrus_sections_into::arena::GlobalId;
use walrus_sections_into::collections::ModuleGlobals;
use walrus_sections_into::forms::ValType;
use walrus_sections_into::index_maps::IndicesToIds;
use walrus_sections_into::module_items::GlobalKind;
use walrus_sections_into::{IntoError, import_id, read_expr};

// Where it comes from.
fn read_origin(
    alloc: Alloc,
    origin: &GlobalOrigin,
    maps: &IndicesToIds,
) -> Result<GlobalKind, IntoError>
    ensures becomes { IfOk result (OriginBecomes (look_of (ids maps.now)) origin.now) }
    ensures unknown { IfErr result (λ e. e ≡ Unknown → OriginLacks (look_of (ids maps.now)) origin.now) }
{
    match origin {
        GlobalOrigin::Import(import) => {
            let import = import_id(*import)?;
            Ok(GlobalKind::Import(import))
        }
        GlobalOrigin::Own(init) => {
            let init = read_expr(alloc, init.as_slice(), maps)?;
            Ok(GlobalKind::Local(init))
        }
    }
}

fn add_kind(
    ty: ValType,
    mutable: bool,
    kind: GlobalKind,
    into: &mut ModuleGlobals,
) -> Result<GlobalId, AllocError>
    ensures id { IfOk result (λ id. id ≡ next_id into.old) }
    ensures added { IfOk result (λ id. into.new.slots ≡ into.old.slots ++ Some (record { id = id; ty = ty; mutable = mutable; shared = false; kind = kind; name = None }) ∷ []) }
    ensures refused { OnErr result (into.new ≡ into.old) }
{
    match kind {
        GlobalKind::Import(import) => into.add_import(ty, mutable, false, import),
        GlobalKind::Local(init) => into.add_local(ty, mutable, false, init),
    }
}

fn add_global(
    alloc: Alloc,
    global: &Global,
    maps: &IndicesToIds,
    into: &mut ModuleGlobals,
) -> Result<(), IntoError>
    ensures added { OnOk result (Adds (IsGlobalOf (look_of (ids maps.now)) (next_id into.old) global.now) into.old into.new) }
    ensures refused { OnErr result (into.new ≡ into.old) }
    ensures unknown { IfErr result (λ e. e ≡ Unknown → GlobalLacks (look_of (ids maps.now)) global.now) }
{
    let ty = read_value(global.ty, maps)?;
    let kind = read_origin(alloc, &global.origin, maps)?;
    add_kind(ty, global.mutable, kind, into)?;
    Ok(())
}

/// Adds the globals, imported ones too, in their order.
///
/// # Errors
///
/// Want of memory; `Unknown` only where a type or a first value of one names nothing, or a first value isn't constant. The first of
/// the globals may be there.
pub fn add_globals(
    alloc: Alloc,
    globals: &[Global],
    maps: &IndicesToIds,
    into: &mut ModuleGlobals,
) -> Result<(), IntoError>
    ensures added { OnOk result (Filled (IsGlobalOf (look_of (ids maps.now))) globals.now into.old.slots into.new.slots) }
    ensures in_part { OnErr result (FilledInPart (IsGlobalOf (look_of (ids maps.now))) globals.now into.old.slots into.new.slots) }
    ensures unknown { IfErr result (λ e. e ≡ Unknown → Any (GlobalLacks (look_of (ids maps.now))) globals.now) }
{
    for global in globals {
        add_global(alloc, global, maps, into)?;
    }
    Ok(())
}
