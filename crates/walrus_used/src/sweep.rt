//! What chains of references reach, asked while it is at hand.
ghost use Rattle.std.specs.Prelude.{◌≡◌, ◌↔◌, ℕ, Decides, IsTrue, length, OnOk, IfOk};
ghost use Rattle.std.specs.Bool.{OnTrue};
ghost use Rattle.walrus_roots.specs.declared.item.Item.{Item as AnyItem};
ghost use Rattle.walrus_marks.specs.Chains.{FitsIn, IsReached, Meets};
ghost use Rattle.walrus_used.specs.Asked.{AllHold};
ghost use Rattle.walrus_used.specs.Picks.{Below};

use std::alloc::{AllocError, Global};
use walrus_marks::{Claims, Marks};
use walrus_roots::Item;

/// Roots in parts, and references: which items are kept for themselves, and what each item names.
pub(crate) trait PartNames {
    /// That the item is a root.
    ghost is_root: { Self → AnyItem → Type 0 };

    /// That the item is a root of the part of this number.
    ghost is_root_in: { Self → ℕ → AnyItem → Type 0 };

    /// That the one item names the other.
    ghost refers: { Self → AnyItem → AnyItem → Type 0 };

    /// How many parts there are.
    fn part_count(&self) -> usize
        ensures { (x : AnyItem) → is_root self.now x ↔ Below (is_root_in self.now) result x };

    /// Meets the roots of a part.
    fn meet_part(&self, part: usize, marks: &mut Marks)
        ensures { Meets (is_root_in self.now part) marks.old marks.new };

    /// Meets what the item names.
    ///
    /// # Errors
    ///
    /// Want of memory.
    fn meet_named(&self, item: Item, marks: &mut Marks) -> Result<(), AllocError>
        ensures { OnOk result (Meets (refers self.now item) marks.old marks.new) };
}

/// What is asked of items.
pub trait Check {
    /// That it holds of the item.
    ghost holds: { Self → AnyItem → Type 0 };

    /// Whether it holds of the item.
    ///
    /// # Errors
    ///
    /// Want of memory.
    fn check(&self, item: Item) -> Result<bool, AllocError>
        ensures { IfOk result (λ ok. Decides ok (holds self.now item)) };
}

/// What was reached.
#[derive(Drop)]
pub struct Reached {
    /// Marks of the items that were reached.
    pub marks: Marks,
    /// Whether what was asked holds of all of them.
    pub holds: bool,
}

// Whether it held before, and holds of the item.
fn holds_on<C: Check>(check: &C, held: bool, item: Item) -> Result<bool, AllocError>
    ensures { IfOk result (λ ok. OnTrue ok (IsTrue held × C.holds check.now item)) }
{
    if !held {
        return Ok(false);
    }
    check.check(item)
}

/// Marks what chains of references reach from the roots, where each space has as many ids as the counts say, and asks of
/// each item, while it is at hand, whether this holds. Each item is looked at once, and what the roots of a part reach before
/// those of the next are met, so that memory that was touched is soon touched again. Asks that items past the counts name nothing.
/// Of those that have no flag a claimed one is known, if such a one is reached.
///
/// # Errors
///
/// Want of memory.
pub(crate) fn reach_asking<N: PartNames, C: Check>(
    alloc: Global,
    names: &N,
    check: &C,
    counts: &[usize],
    claims: Claims,
) -> Result<Reached, AllocError>
    requires spaces { length counts.now ≡ 10 }
    requires fit { (x y : AnyItem) → N.refers names.now x y → FitsIn counts.now x }
    ensures reached { IfOk result (λ r. IsReached counts.now (N.is_root names.now) (N.refers names.now) r.marks) }
    ensures claimed { IfOk result (λ r. r.marks.missing.claimed ≡ claims) }
    ensures asked { IfOk result (λ r. OnTrue r.holds (AllHold (C.holds check.now) r.marks)) }
{
    let mut marks = Marks::new(alloc, counts, claims)?;
    let mut holds = true;
    for part in 0..names.part_count() {
        names.meet_part(part, &mut marks);
        while let Some(item) = marks.take() {
            names.meet_named(item, &mut marks)?;
            holds = holds_on(check, holds, item)?;
        }
    }
    Ok(Reached { marks, holds })
}
