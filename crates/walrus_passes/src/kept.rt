//! What is kept of a module.
ghost use Rattle.std.specs.Prelude.{◌≡◌, ◌↔◌, ◌<◌, ℕ, Decides, IfErr, IfOk, MatchOption, OnOk};
ghost use Rattle.walrus_refusals.specs.walrus_used.walrus_module.Parts.{parts};
ghost use Rattle.walrus_roots.specs.declared.item.Item.{Item as AnyItem};
ghost use Rattle.walrus_roots.specs.Items.{item};
ghost use Rattle.walrus_arena.specs.Arena.{IsLive};
ghost use Rattle.walrus_refusals.specs.walrus_used.walrus_references.Kept.{IsFirstMemory, Kept};
ghost use Rattle.walrus_refusals.specs.walrus_used.walrus_module.Items.{Lives};
ghost use Rattle.wasm_formats.specs.declared.fault.Space.TheVariants as spaces;
ghost use Rattle.walrus_refusals.specs.Checks.{IsMet};
ghost use Rattle.walrus_refusals.specs.Sound.{IsRefused, IsSound};
ghost use Rattle.walrus_passes.specs.Keeping.{IsHeld, SparesMemory};

use std::alloc::Global;
use walrus_arena::MemoryId;
use walrus_errors::ModuleError;
use walrus_marks::Marks;
use walrus_refusals::used::module::Module;
use walrus_refusals::{is_same, reach_sound};
use walrus_roots::Item;
use wasm_formats::Space;

/// The items that are kept.
#[derive(Drop)]
pub(crate) struct KeptItems {
    // What is reached from the roots.
    marks: Marks,
    // The first memory, where data is reached and no memory is.
    spared: Option<MemoryId>,
}

impl KeptItems {
    // Whether the item is the memory that is spared.
    fn is_spared(&self, x: Item) -> bool
        ensures { Decides result (MatchOption self.now.spared ⊥ (λ memory. x ≡ item spaces.Memory memory)) }
    {
        match self.spared {
            Some(memory) => is_same(x, Item::new(Space::Memory, memory)),
            None => false,
        }
    }

    /// Whether the item is kept.
    pub(crate) fn has(&self, x: Item) -> bool
        ensures { Decides result (IsHeld self.now x) }
    {
        self.marks.contains(x) || self.is_spared(x)
    }
}

// Whether an item of the space with an id below the count was met.
fn has_any(marks: &Marks, space: Space, count: usize) -> bool
    ensures { Decides result ((id : ℕ) × (id < count) × IsMet marks.now (item space id)) }
{
    for index in 0..count {
        if marks.has(space, index) {
            return true;
        }
    }
    false
}

// The live memory of the lowest id.
fn first_memory<B>(input: &Module<B>) -> Option<MemoryId>
    ensures { MatchOption result ((id : ℕ) → IsLive input.now.memories id → ⊥) (IsFirstMemory (parts input.now)) }
{
    for index in 0..input.memories.next_id().index() {
        let id = MemoryId::from_index(index);
        if input.memories.contains(id) {
            return Some(id);
        }
    }
    None
}

// The first memory, where data was met and no memory.
fn spared_memory<B>(input: &Module<B>, marks: &Marks) -> Option<MemoryId>
    requires { (x : AnyItem) → IsMet marks.now x → Lives (parts input.now) x }
    ensures { MatchOption result ((memory : ℕ) → SparesMemory (parts input.now) marks.now memory → ⊥) (SparesMemory (parts input.now) marks.now) }
{
    let data = input.data_segments.next_id().index();
    let memories = input.memories.next_id().index();
    if has_any(marks, Space::Memory, memories) {
        return None;
    }
    if !has_any(marks, Space::Data, data) {
        return None;
    }
    first_memory(input)
}

/// The items that are kept, where custom sections push these.
///
/// # Errors
///
/// What is wrong with what is reached. Want of memory.
pub(crate) fn kept_items<B>(
    alloc: Global,
    input: &Module<B>,
    pushed: &[Item],
) -> Result<KeptItems, ModuleError>
    ensures kept { IfOk result (λ kept. (x : AnyItem) → IsHeld kept x ↔ Kept (parts input.now) pushed.now x) }
    ensures sound { OnOk result (IsSound (parts input.now) pushed.now) }
    ensures refused { IfErr result (IsRefused (parts input.now) pushed.now) }
{
    let marks = reach_sound(alloc, input, pushed)?;
    let spared = spared_memory(input, &marks);
    Ok(KeptItems { marks, spared })
}
