//! What is reached in a module.
ghost use Rattle.std.specs.Prelude.{◌≡◌, ◌<◌, ◌≤◌, ◌^◌, ℕ, IfOk, slice_index_or};
ghost use Rattle.std.specs.Bool.{OnTrue};
ghost use Rattle.walrus_marks.specs.Chains.{IsReached};
ghost use Rattle.walrus_references.specs.References.{Refers};
ghost use Rattle.walrus_references.specs.Roots.{Root};
ghost use Rattle.walrus_references.specs.walrus_module.Parts.{parts};
ghost use Rattle.walrus_used.specs.Asked.{AllHold};
ghost use Rattle.walrus_used.specs.Counts.{counts_of, past_types};

use crate::module_names::ModuleNames;
use crate::segments::element_segments;
use crate::sweep::{Check, Reached, reach_asking};
use std::alloc::{AllocError, Global};
use walrus_marks::Claims;
use walrus_module::Module;
use walrus_roots::Item;
use walrus_types::ModuleTypes;

/// One more than the highest id of a live type.
pub fn type_count(types: &ModuleTypes) -> usize
    ensures count { result ≡ past_types types.now }
    ensures bounded { result ≤ 2 ^ 32 }
{
    walrus_types::laws::types_are_grouped(types);
    match types.highest() {
        Some(id) => id.index() + 1,
        None => 0,
    }
}

/// How many ids were given out in each space, by the number of the space; of types, one more than the highest live one.
pub fn id_counts<B>(input: &Module<B>) -> [usize; 10]
    ensures counts { result ≡ counts_of (parts input.now) }
    ensures bounded { (space : ℕ) → space < 8 → slice_index_or (counts_of (parts input.now)) space 0 ≤ 2 ^ 32 }
{
    [
        type_count(&input.types),
        input.funcs.next_id().index(),
        input.tables.next_id().index(),
        input.memories.next_id().index(),
        input.tags.next_id().index(),
        input.globals.next_id().index(),
        input.elements.next_id().index(),
        input.data_segments.next_id().index(),
        input.locals.iter().as_slice().len(),
        0,
    ]
}

/// Marks what is reached from the roots, where custom sections push these, and asks of each item, while it is at hand,
/// whether this holds. Of those that have no flag a claimed one is known, if such a one is reached. Takes time and memory in
/// proportion to the module.
///
/// # Errors
///
/// Want of memory.
pub fn reach_items<B, C: Check>(
    alloc: Global,
    input: &Module<B>,
    pushed: &[Item],
    check: &C,
    claims: Claims,
) -> Result<Reached, AllocError>
    ensures reached { IfOk result (λ r. IsReached (counts_of (parts input.now)) (Root (parts input.now) pushed.now) (Refers (parts input.now)) r.marks) }
    ensures claimed { IfOk result (λ r. r.marks.missing.claimed ≡ claims) }
    ensures asked { IfOk result (λ r. OnTrue r.holds (AllHold (C.holds check.now) r.marks)) }
{
    walrus_types::laws::types_are_grouped(&input.types);
    let segments = element_segments(alloc, input)?;
    let names = ModuleNames {
        alloc,
        input,
        rooted: segments.rooted.as_slice(),
        pushed,
        active: segments.active.as_slice(),
    };
    reach_asking(alloc, &names, check, &id_counts(input), claims)
}
