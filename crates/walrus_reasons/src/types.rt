//! Adding what types name.
ghost use Rattle.std.specs.Prelude.{◌≡◌, ◌++◌, OnOk};
ghost use Rattle.wasm_formats.specs.declared.fault.Space.TheVariants as spaces;
ghost use Rattle.walrus_used.specs.walrus_module.Items.{written_type};
ghost use Rattle.walrus_used.specs.walrus_module.Parts.{parts};
ghost use Rattle.walrus_used.specs.walrus_references.References.{IsInGroup, RefersIn, named_by, type_items};
ghost use Rattle.walrus_reasons.specs.Added.{Adds};

use crate::names::add_types;
use std::alloc::{AllocError, Global};
use walrus_arena::TypeId;
use walrus_module::Module;
use walrus_roots::Item;
use walrus_types::ModuleTypes;

// Adds the types that a type names.
fn add_named(
    alloc: Global,
    named: &mut Vec<Item>,
    types: &ModuleTypes,
    id: TypeId,
) -> Result<(), AllocError>
    ensures { OnOk result (named.new.items ≡ named.old.items ++ named_by type_items (written_type types.now id)) }
{
    if types.contains(id) && !types.get(id).is_entry() {
        let mut ids = Vec::new(alloc);
        types.get(id).referenced_types(&mut ids)?;
        add_types(named, ids.as_slice())?;
    }
    Ok(())
}

// Adds the members of a type's group, if that is explicit.
fn add_group(named: &mut Vec<Item>, types: &ModuleTypes, id: TypeId) -> Result<(), AllocError>
    ensures { OnOk result (Adds (IsInGroup types.now id) named.old.items named.new.items) }
{
    walrus_types::laws::types_are_grouped(types);
    if let Some(group) = types.rec_group_for_type(id) {
        if group.is_explicit() {
            add_types(named, group.types.as_slice())?;
        }
    }
    Ok(())
}

/// Adds the types that a type names, and the members of its group, if that is explicit.
///
/// # Errors
///
/// Want of memory.
pub(crate) fn add_type_at<B>(
    alloc: Global,
    named: &mut Vec<Item>,
    input: &Module<B>,
    id: TypeId,
) -> Result<(), AllocError>
    ensures { OnOk result (Adds (RefersIn (parts input.now) spaces.Type id) named.old.items named.new.items) }
{
    add_named(alloc, named, &input.types, id)?;
    add_group(named, &input.types, id)
}
