//! Deleting what isn't kept from a collection.
ghost use Rattle.std.specs.Prelude.{◌≡◌};
ghost use Rattle.walrus_refusals.specs.walrus_used.walrus_module.Items.{brought};
ghost use Rattle.walrus_roots.specs.Items.{item};
ghost use Rattle.walrus_passes.specs.Keeping.{IsHeld};
ghost use Rattle.walrus_passes.specs.Part.{Rest, RestAmong};

use crate::kept::KeptItems;
use walrus_arena::{Id, ImportId, Tombstone};
use walrus_refusals::brought;
use walrus_refusals::used::collections::{Collection, ModuleImports};
use walrus_roots::Item;
use wasm_formats::Space;

// Deletes the item of this number, if it lives and isn't kept.
fn drop_at<T: Tombstone + Drop, S>(
    items: &mut Collection<T, S>,
    kept: &KeptItems,
    space: Space,
    index: u32,
)
    ensures { RestAmong (λ k. k ≡ index) (λ k _. IsHeld kept.now (item space k)) items.old items.new }
{
    if kept.has(Item { space, id: index }) {
        return;
    }
    if !items.contains(Id::from_index(index as usize)) {
        return;
    }
    items.delete(Id::from_index(index as usize));
}

/// Deletes the items of the space that aren't kept. Takes no memory.
pub(crate) fn drop_items<T: Tombstone + Drop, S>(
    items: &mut Collection<T, S>,
    kept: &KeptItems,
    space: Space,
)
    ensures { Rest (λ id _. IsHeld kept.now (item space id)) items.old items.new }
{
    for index in 0..items.next_id().index() {
        drop_at(items, kept, space, index as u32);
    }
}

// Deletes the import of this id, if it lives and its item isn't kept.
fn drop_import_at(imports: &mut ModuleImports, kept: &KeptItems, id: ImportId)
    ensures { RestAmong (λ k. k ≡ id) (λ _ import. IsHeld kept.now (brought import.kind)) imports.old imports.new }
{
    if !imports.contains(id) {
        return;
    }
    if kept.has(brought(imports.get(id).kind)) {
        return;
    }
    imports.delete(id);
}

/// Deletes the imports whose items aren't kept. Takes no memory.
pub(crate) fn drop_imports(imports: &mut ModuleImports, kept: &KeptItems)
    ensures { Rest (λ _ import. IsHeld kept.now (brought import.kind)) imports.old imports.new }
{
    for index in 0..imports.next_id().index() {
        drop_import_at(imports, kept, ImportId::from_index(index));
    }
}
