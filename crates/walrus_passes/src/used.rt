//! What of a module is used.
ghost use Rattle.std.specs.Prelude.{◌<◌, ◌≤◌, ◌^◌, ℕ, Decides, IfErr, IfOk, OnOk, nat_eq};
ghost use Rattle.std.specs.HashSet.{contains};
ghost use Rattle.walrus_refusals.specs.walrus_used.walrus_module.Parts.{parts};
ghost use Rattle.walrus_roots.specs.Items.{item, PushesShared};
ghost use Rattle.walrus_marks.specs.Chains.{FitsIn};
ghost use Rattle.walrus_refusals.specs.walrus_used.Counts.{counts_of};
ghost use Rattle.walrus_refusals.specs.Sound.{IsRefused, IsSound};
ghost use Rattle.walrus_arena.specs.Arena.{entries};
ghost use Rattle.walrus_sections.specs.Sections.{pushed};
ghost use Rattle.walrus_passes.specs.Asked.{IsRefusedAsked, WithPushed};
ghost use Rattle.walrus_passes.specs.Keeping.{IsHeld};
ghost use Rattle.walrus_passes.specs.UsedItems.{AreKept, HasJust};

use crate::kept::{KeptItems, kept_items};
use std::alloc::{AllocError, Global};
use walrus_arena::{
    DataSpace, ElementSpace, FunctionSpace, GlobalSpace, Id, IdHashSet, MemorySpace, TableSpace,
    TagSpace, TypeSpace,
};
use walrus_errors::ModuleError;
use walrus_refusals::used::id_counts;
use walrus_refusals::used::module::Module;
use walrus_roots::Item;
use walrus_sections::CustomSection;
use wasm_formats::Space;

/// The items of a module that are used: what chains of references reach from its roots (exports, the start function,
/// active data segments, active element segments of imported tables, declared element segments, and what custom
/// sections push); and its first memory, where data is used and no memory is.
#[derive(Drop)]
pub struct Used {
    pub types: IdHashSet<TypeSpace>,
    pub funcs: IdHashSet<FunctionSpace>,
    pub tables: IdHashSet<TableSpace>,
    pub memories: IdHashSet<MemorySpace>,
    pub tags: IdHashSet<TagSpace>,
    pub globals: IdHashSet<GlobalSpace>,
    pub elements: IdHashSet<ElementSpace>,
    pub data_segments: IdHashSet<DataSpace>,
}

// The ids below the count that are kept in the space.
fn set_of<S>(
    alloc: Global,
    kept: &KeptItems,
    space: Space,
    count: usize,
) -> Result<IdHashSet<S>, AllocError>
    requires { count ≤ 2 ^ 32 }
    ensures { IfOk result (λ set. (id : ℕ) → Decides (contains nat_eq set id) ((id < count) × IsHeld kept.now (item space id))) }
{
    walrus_arena::laws::ids_go_by_number::<S>();
    let mut set = IdHashSet::new(alloc);
    for index in 0..count {
        let item = Item {
            space,
            id: index as u32,
        };
        if !kept.has(item) {
            continue;
        }
        set.insert(Id::from_index(index))?;
    }
    Ok(set)
}

// The kept ids of each space.
fn sets_of<B>(alloc: Global, input: &Module<B>, kept: &KeptItems) -> Result<Used, AllocError>
    ensures { IfOk result (HasJust (λ x. FitsIn (counts_of (parts input.now)) x × IsHeld kept.now x)) }
{
    let counts = id_counts(input);
    Ok(Used {
        types: set_of(alloc, kept, Space::Type, counts[0])?,
        funcs: set_of(alloc, kept, Space::Function, counts[1])?,
        tables: set_of(alloc, kept, Space::Table, counts[2])?,
        memories: set_of(alloc, kept, Space::Memory, counts[3])?,
        tags: set_of(alloc, kept, Space::Tag, counts[4])?,
        globals: set_of(alloc, kept, Space::Global, counts[5])?,
        elements: set_of(alloc, kept, Space::Element, counts[6])?,
        data_segments: set_of(alloc, kept, Space::Data, counts[7])?,
    })
}

impl Used {
    /// The items of the module that are used.
    ///
    /// # Errors
    ///
    /// First `SectionRefused` where a custom section refuses to say what it pushes: each is asked once, by rising id, before
    /// anything else. Then, in this order, for what is reached from the roots: `NotLinked` where an item and an import don't name each
    /// other, or a function has no body or not its arguments; `NoTree` where a body is no tree; `DeadReference` where
    /// an item doesn't live, or a type names one past its own group; `Unsupported`, without a place, where a global is shared or
    /// a heap type is exact. Want of memory.
    pub fn new<B: CustomSection>(alloc: Global, input: &Module<B>) -> Result<Self, ModuleError>
        ensures kept { IfOk result (λ used. WithPushed (pushed B.gc_roots (entries input.now.customs)) (λ items. AreKept (parts input.now) items used)) }
        ensures sound { OnOk result (WithPushed (pushed B.gc_roots (entries input.now.customs)) (IsSound (parts input.now))) }
        ensures shared { OnOk result (WithPushed (pushed B.gc_roots (entries input.now.customs)) PushesShared) }
        ensures refused { IfErr result (IsRefusedAsked (parts input.now) (pushed B.gc_roots (entries input.now.customs))) }
    {
        let roots = input.customs.gc_roots(alloc)?;
        Used::from_roots(alloc, input, roots.items())
    }

    /// The items of the module that are used where these items are roots, too.
    ///
    /// # Errors
    ///
    /// Those of `new`.
    pub fn from_roots<B>(
        alloc: Global,
        input: &Module<B>,
        pushed: &[Item],
    ) -> Result<Self, ModuleError>
        ensures kept { IfOk result (AreKept (parts input.now) pushed.now) }
        ensures sound { OnOk result (IsSound (parts input.now) pushed.now) }
        ensures refused { IfErr result (IsRefused (parts input.now) pushed.now) }
    {
        walrus_types::laws::types_are_grouped(&input.types);
        let kept = kept_items(alloc, input, pushed)?;
        let used = sets_of(alloc, input, &kept)?;
        Ok(used)
    }
}
