//! Which types aren't kept.
ghost use Rattle.std.specs.Prelude.{◌≡◌, Decides, IfOk};
ghost use Rattle.wasm_formats.specs.declared.fault.Space.TheVariants as spaces;
ghost use Rattle.walrus_roots.specs.Items.{item};
ghost use Rattle.walrus_types.specs.Table.{marked};
ghost use Rattle.walrus_passes.specs.DroppedTypes.{AreUnkept};
ghost use Rattle.walrus_passes.specs.Keeping.{IsHeld};

use crate::kept::KeptItems;
use std::alloc::{AllocError, Global};
use walrus_arena::TypeId;
use walrus_refusals::used::type_count;
use walrus_roots::Item;
use walrus_types::ModuleTypes;
use wasm_formats::Space;

// Whether the type isn't kept.
fn is_unkept(kept: &KeptItems, id: TypeId) -> bool
    ensures { Decides result (IsHeld kept.now (item spaces.Type id) → ⊥) }
{
    !kept.has(Item::new(Space::Type, id))
}

/// Marks of the ids of types that aren't kept, as far as types live. No type is looked at: entry types are marked, too, and so
/// is what is dead.
///
/// # Errors
///
/// Want of memory.
pub(crate) fn unkept_types(
    alloc: Global,
    types: &ModuleTypes,
    kept: &KeptItems,
) -> Result<Vec<bool>, AllocError>
    ensures { IfOk result (λ marks. AreUnkept (λ id. IsHeld kept.now (item spaces.Type id)) types.now (marked marks.items)) }
{
    let mut marks = Vec::new(alloc);
    for index in 0..type_count(types) {
        let unkept = is_unkept(kept, TypeId::from_index(index));
        marks.push(unkept)?;
    }
    Ok(marks)
}
