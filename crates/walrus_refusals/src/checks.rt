//! Checks of the items that were met.
ghost use Rattle.std.specs.Prelude.{◌≡◌, ◌<◌, ◌≤◌, ◌^◌, Decides, IfOk};
ghost use Rattle.walrus_used.specs.walrus_module.Parts.{parts};
ghost use Rattle.walrus_roots.specs.declared.item.Item.{Item as AnyItem};
ghost use Rattle.walrus_roots.specs.Items.{space_number};
ghost use Rattle.walrus_marks.specs.Chains.{FitsIn};
ghost use Rattle.walrus_used.specs.Counts.{counts_of};
ghost use Rattle.walrus_refusals.specs.Checks.{HoldsIn, HoldsOrFails, IsMet};

use std::alloc::AllocError;
use walrus_marks::Marks;
use walrus_roots::Item;
use walrus_used::module::Module;
use walrus_used::{Check, id_counts};
use wasm_formats::Space;

/// Two checks, of which an item is asked both while it is at hand.
#[derive(Drop)]
pub(crate) struct Both<A, B> {
    pub(crate) first: A,
    pub(crate) second: B,
}

impl<A: Check, B: Check> Check for Both<A, B> {
    ghost holds = { λ s x. A.holds s.first x × B.holds s.second x };

    fn check(&self, item: Item) -> Result<bool, AllocError>
        ensures { IfOk result (λ ok. Decides ok (A.holds self.now.first item × B.holds self.now.second item)) }
    {
        if !self.first.check(item)? {
            return Ok(false);
        }
        self.second.check(item)
    }
}

// Whether it holds of the item, if that was met.
fn holds_if_met<C: Check>(marks: &Marks, check: &C, item: Item) -> Result<bool, AllocError>
    ensures { IfOk result (λ ok. Decides ok (IsMet marks.now item → C.holds check.now item)) }
{
    if !marks.contains(item) {
        return Ok(true);
    }
    check.check(item)
}

// Whether it holds of what was met in the space with an id below the count.
fn holds_in<C: Check>(
    marks: &Marks,
    check: &C,
    space: Space,
    count: usize,
) -> Result<bool, AllocError>
    requires { count ≤ 2 ^ 32 }
    ensures { IfOk result (λ ok. Decides ok (HoldsIn (C.holds check.now) marks.now space count)) }
{
    for index in 0..count {
        let item = Item {
            space,
            id: index as u32,
        };
        if !holds_if_met(marks, check, item)? {
            return Ok(false);
        }
    }
    Ok(true)
}

// The space of a number, but for locals and labels.
fn space_of(number: usize) -> Space
    requires { number < 8 }
    ensures { space_number result ≡ number }
{
    match number {
        0 => Space::Type,
        1 => Space::Function,
        2 => Space::Table,
        3 => Space::Memory,
        4 => Space::Tag,
        5 => Space::Global,
        6 => Space::Element,
        _ => Space::Data,
    }
}

/// A space in which it doesn't hold of all that was met, if there is one. Locals are not looked at.
///
/// # Errors
///
/// Want of memory.
pub(crate) fn failing_space<B, C: Check>(
    input: &Module<B>,
    marks: &Marks,
    check: &C,
) -> Result<Option<Space>, AllocError>
    requires { (x : AnyItem) → IsMet marks.now x → FitsIn (counts_of (parts input.now)) x }
    ensures { IfOk result (λ answer. HoldsOrFails (C.holds check.now) marks.now answer) }
{
    let counts = id_counts(input);
    for number in 0..8 {
        let space = space_of(number);
        if !holds_in(marks, check, space, counts[number])? {
            return Ok(Some(space));
        }
    }
    Ok(None)
}
