//! What chains of references reach.
ghost use Rattle.std.specs.Prelude.{◌≡◌, length, OnOk, IfOk};
ghost use Rattle.walrus_roots.specs.declared.item.Item.{Item as AnyItem};
ghost use Rattle.walrus_marks.specs.Chains.{FitsIn, IsReached, Meets};

use crate::claims::Claims;
use crate::marks::Marks;
use std::alloc::{AllocError, Global};
use walrus_roots::Item;

/// Roots and references: which items are kept for themselves, and what each item names.
pub trait Names {
    /// That the item is a root.
    ghost is_root: { Self → AnyItem → Type 0 };

    /// That the one item names the other.
    ghost refers: { Self → AnyItem → AnyItem → Type 0 };

    /// Meets the roots.
    fn meet_roots(&self, marks: &mut Marks)
        ensures { Meets (is_root self.now) marks.old marks.new };

    /// Meets what the item names.
    ///
    /// # Errors
    ///
    /// Want of memory.
    fn meet_named(&self, item: Item, marks: &mut Marks) -> Result<(), AllocError>
        ensures { OnOk result (Meets (refers self.now item) marks.old marks.new) };
}

/// Marks what chains of references reach from the roots, where each space has as many ids as the counts say. Each
/// item is looked at once. Asks that items past the counts name nothing.
///
/// # Errors
///
/// Want of memory.
pub fn reach<N: Names>(alloc: Global, names: &N, counts: &[usize]) -> Result<Marks, AllocError>
    requires spaces { length counts.now ≡ 10 }
    requires fit { (x y : AnyItem) → N.refers names.now x y → FitsIn counts.now x }
    ensures { IfOk result (λ marks. IsReached counts.now (N.is_root names.now) (N.refers names.now) marks) }
{
    let mut marks = Marks::new(alloc, counts, Claims::none(alloc))?;
    names.meet_roots(&mut marks);
    while let Some(item) = marks.take() {
        names.meet_named(item, &mut marks)?;
    }
    Ok(marks)
}
