//! Dropping what isn't kept.
ghost use Rattle.std.specs.Prelude.{◌≡◌, IfErr, OnErr, OnOk};
ghost use Rattle.wasm_formats.specs.declared.fault.Space.TheVariants as spaces;
ghost use Rattle.walrus_refusals.specs.walrus_used.walrus_module.Parts.{parts};
ghost use Rattle.walrus_roots.specs.Items.{item, PushesShared};
ghost use Rattle.walrus_refusals.specs.Sound.{IsRefused, IsSound};
ghost use Rattle.walrus_arena.specs.Arena.{entries};
ghost use Rattle.walrus_types.specs.Table.{marked};
ghost use Rattle.walrus_sections.specs.Sections.{pushed};
ghost use Rattle.walrus_passes.specs.Asked.{IsRefusedAsked, WithPushed};
ghost use Rattle.walrus_passes.specs.DroppedTypes.{AreClosed, AreUnkept};
ghost use Rattle.walrus_passes.specs.Keeping.{IsHeld};
ghost use Rattle.walrus_passes.specs.Part.{IsKeptPart, IsPart};

use crate::drop::{drop_imports, drop_items};
use crate::kept::{KeptItems, kept_items};
use crate::types::unkept_types;
use std::alloc::Global;
use walrus_errors::ModuleError;
use walrus_refusals::used::module::Module;
use walrus_roots::Item;
use walrus_sections::CustomSection;
use wasm_formats::Space;

// Deletes the items that aren't kept, of which the types are marked, and each import whose item isn't. Entry types stay, but for those in
// explicit groups, and lose their marks. Takes no memory.
fn drop_unkept<B>(input: &mut Module<B>, kept: &KeptItems, types: &mut [bool])
    requires closed { AreClosed (λ id. IsHeld kept.now (item spaces.Type id)) input.old.types }
    requires listed { AreUnkept (λ id. IsHeld kept.now (item spaces.Type id)) input.old.types (marked types.old) }
    ensures part { IsPart (IsHeld kept.now) (parts input.old) (parts input.new) }
    ensures customs { input.new.customs ≡ input.old.customs }
{
    walrus_types::laws::types_are_grouped(&input.types);
    input.types.delete_unkept(types);
    drop_items(&mut input.funcs, kept, Space::Function);
    drop_items(&mut input.tables, kept, Space::Table);
    drop_items(&mut input.memories, kept, Space::Memory);
    drop_items(&mut input.tags, kept, Space::Tag);
    drop_items(&mut input.globals, kept, Space::Global);
    drop_items(&mut input.elements, kept, Space::Element);
    drop_items(&mut input.data_segments, kept, Space::Data);
    drop_imports(&mut input.imports, kept);
}

/// Deletes the items of the module that aren't used, and each import whose item isn't. Entry types stay, but for those
/// in explicit groups that aren't used. What is used is found before anything is deleted, and deleting takes no memory.
///
/// # Errors
///
/// First `SectionRefused` where a custom section refuses to say what it pushes: each is asked once, by rising id, before anything
/// else. Then, in this order, for what is reached from the roots: `NotLinked` where an item and an import don't name each other, or
/// a function has no body or not its arguments; `NoTree` where a body is no tree; `DeadReference` where an item doesn't
/// live, or a type names one past its own group; `Unsupported`, without a place, where a global is shared or a heap type is exact.
/// Want of memory. The module stays as it was.
pub fn run<B: CustomSection>(alloc: Global, input: &mut Module<B>) -> Result<(), ModuleError>
    ensures kept { OnOk result (WithPushed (pushed B.gc_roots (entries input.old.customs)) (λ items. IsKeptPart (parts input.old) items (parts input.new))) }
    ensures sound { OnOk result (WithPushed (pushed B.gc_roots (entries input.old.customs)) (IsSound (parts input.old))) }
    ensures shared { OnOk result (WithPushed (pushed B.gc_roots (entries input.old.customs)) PushesShared) }
    ensures customs { input.new.customs ≡ input.old.customs }
    ensures unchanged { OnErr result (input.new ≡ input.old) }
    ensures refused { IfErr result (IsRefusedAsked (parts input.old) (pushed B.gc_roots (entries input.old.customs))) }
{
    let roots = input.customs.gc_roots(alloc)?;
    run_from_roots(alloc, input, roots.items())
}

/// The same where these items are roots, too.
///
/// # Errors
///
/// Those of `run`.
pub fn run_from_roots<B>(
    alloc: Global,
    input: &mut Module<B>,
    pushed: &[Item],
) -> Result<(), ModuleError>
    ensures kept { OnOk result (IsKeptPart (parts input.old) pushed.now (parts input.new)) }
    ensures sound { OnOk result (IsSound (parts input.old) pushed.now) }
    ensures customs { input.new.customs ≡ input.old.customs }
    ensures unchanged { OnErr result (input.new ≡ input.old) }
    ensures refused { IfErr result (IsRefused (parts input.old) pushed.now) }
{
    let kept = kept_items(alloc, input, pushed)?;
    let mut types = unkept_types(alloc, &input.types, &kept)?;
    drop_unkept(input, &kept, types.as_mut_slice());
    Ok(())
}
