//! What is reached in a module, where nothing is wrong with it.
ghost use Rattle.std.specs.Prelude.{◌≡◌, ◌↔◌, Decides, IfErr, IfOk, MatchOption, None, OnOk};
ghost use Rattle.std.specs.Bool.{OnTrue};
ghost use Rattle.walrus_used.specs.walrus_module.Parts.{parts};
ghost use Rattle.walrus_roots.specs.declared.item.Item.{Item as AnyItem};
ghost use Rattle.walrus_marks.specs.Chains.{FitsIn};
ghost use Rattle.walrus_used.specs.Asked.{AllHold};
ghost use Rattle.walrus_used.specs.walrus_references.Kept.{IsReached};
ghost use Rattle.walrus_used.specs.walrus_module.Items.{Lives};
ghost use Rattle.walrus_used.specs.Counts.{counts_of};
ghost use Rattle.walrus_refusals.specs.Checks.{AreLinked, AreWell, AreInexact, FailsIn, HasMetForm, HoldsMet, IsMet, IsWell};
ghost use Rattle.walrus_refusals.specs.Sound.{IsRefused, IsSound, Stands};
ghost use Rattle.walrus_refusals.specs.Written.{IsUnshared, StaysInGroup};

use crate::checks::{Both, failing_space};
use crate::claims::past_claims;
use crate::grouped::Grouped;
use crate::linked::{OwnLinks, all_claim_truly};
use crate::live::Living;
use crate::trees::Trees;
use crate::written::{Inexact, Unshared, locals_have_none};
use std::alloc::{AllocError, Global};
use walrus_errors::{Form, ModuleError};
use walrus_marks::Marks;
use walrus_roots::Item;
use walrus_used::module::Module;
use walrus_used::{Check, Reached, reach_items};
use wasm_formats::Space;

// Whether it holds of all that was met but locals.
fn holds_of_all<B, C: Check>(
    input: &Module<B>,
    marks: &Marks,
    check: &C,
) -> Result<bool, AllocError>
    requires { (x : AnyItem) → IsMet marks.now x → FitsIn (counts_of (parts input.now)) x }
    ensures { IfOk result (λ ok. Decides ok (HoldsMet (C.holds check.now) marks.now)) }
{
    match failing_space(input, marks, check)? {
        Some(_) => Ok(false),
        None => Ok(true),
    }
}

// Whether what was met and imports name each other, and functions have bodies.
fn are_linked<B>(alloc: Global, input: &Module<B>, marks: &Marks) -> Result<bool, AllocError>
    requires { (x : AnyItem) → IsMet marks.now x → FitsIn (counts_of (parts input.now)) x }
    ensures { IfOk result (λ ok. Decides ok (AreLinked (parts input.now) marks.now)) }
{
    if !holds_of_all(input, marks, &OwnLinks { alloc, input })? {
        return Ok(false);
    }
    Ok(all_claim_truly(input, marks) && !marks.misses_claimed())
}

// The space of an item that was met and doesn't live, or of types where one names another past its own group.
fn dead_space<B>(
    alloc: Global,
    input: &Module<B>,
    marks: &Marks,
) -> Result<Option<Space>, AllocError>
    requires { (x : AnyItem) → IsMet marks.now x → FitsIn (counts_of (parts input.now)) x }
    ensures { IfOk result (λ answer. MatchOption answer ((HoldsMet (Stands (parts input.now)) marks.now) × (marks.now.missing.item ≡ None)) (FailsIn (Stands (parts input.now)) marks.now)) }
{
    if let Some(space) = failing_space(input, marks, &Living { input })? {
        return Ok(Some(space));
    }
    if let Some(item) = marks.missing() {
        return Ok(Some(item.space));
    }
    failing_space(input, marks, &Grouped { alloc, input })
}

// Whether no heap type in what was met is exact.
fn are_inexact<B>(alloc: Global, input: &Module<B>, marks: &Marks) -> Result<bool, AllocError>
    requires { (x : AnyItem) → IsMet marks.now x → FitsIn (counts_of (parts input.now)) x }
    ensures { IfOk result (λ ok. Decides ok (AreInexact (parts input.now) marks.now)) }
{
    if !holds_of_all(input, marks, &Inexact { alloc, input })? {
        return Ok(false);
    }
    Ok(locals_have_none(input.locals.iter().as_slice(), marks))
}

// A form in what was met that stands in no file.
fn form_of<B>(alloc: Global, input: &Module<B>, marks: &Marks) -> Result<Option<Form>, AllocError>
    requires { (x : AnyItem) → IsMet marks.now x → FitsIn (counts_of (parts input.now)) x }
    ensures { IfOk result (λ answer. MatchOption answer ((HoldsMet (IsUnshared (parts input.now)) marks.now) × AreInexact (parts input.now) marks.now) (HasMetForm (parts input.now) marks.now)) }
{
    if !holds_of_all(input, marks, &Unshared { input })? {
        return Ok(Some(Form::SharedGlobal));
    }
    if !are_inexact(alloc, input, marks)? {
        return Ok(Some(Form::ExactType));
    }
    Ok(None)
}

// Whether nothing is wrong with what was reached, where it is told of all of it whether an item is well.
fn are_well<B>(input: &Module<B>, reached: &Reached) -> bool
    requires { OnTrue reached.now.holds (AllHold (IsWell (parts input.now)) reached.now.marks) }
    ensures { OnTrue result (AreWell (parts input.now) reached.now.marks) }
{
    if !reached.holds {
        return false;
    }
    if reached.marks.missing().is_some() {
        return false;
    }
    all_claim_truly(input, &reached.marks)
}

/// Marks what is reached from the roots, where custom sections push these. Takes time and memory in proportion to
/// the module.
///
/// # Errors
///
/// In this order, for what is reached: `NotLinked` where an item and an import don't name each other, or a function
/// has no body or not its arguments; `NoTree` where a body is no tree; `DeadReference` where an item doesn't live, or
/// a type names one past its own group; `Unsupported`, without a place, where a global is shared or a heap type is exact.
/// Want of memory.
pub fn reach_sound<B>(
    alloc: Global,
    input: &Module<B>,
    pushed: &[Item],
) -> Result<Marks, ModuleError>
    ensures reached { IfOk result (λ marks. (x : AnyItem) → IsMet marks x ↔ IsReached (parts input.now) pushed.now x) }
    ensures sound { OnOk result (IsSound (parts input.now) pushed.now) }
    ensures refused { IfErr result (IsRefused (parts input.now) pushed.now) }
{
    walrus_types::laws::types_are_grouped(&input.types);
    let linked = Both {
        first: OwnLinks { alloc, input },
        second: Trees { alloc, input },
    };
    let standing = Both {
        first: Living { input },
        second: Grouped { alloc, input },
    };
    let written = Both {
        first: Unshared { input },
        second: Inexact { alloc, input },
    };
    let well = Both {
        first: linked,
        second: Both {
            first: standing,
            second: written,
        },
    };
    let claims = past_claims(alloc, input)?;
    let reached = reach_items(alloc, input, pushed, &well, claims)?;
    if are_well(input, &reached) {
        return Ok(reached.marks);
    }
    let marks = reached.marks;
    if !are_linked(alloc, input, &marks)? {
        return Err(ModuleError::NotLinked);
    }
    if !holds_of_all(input, &marks, &Trees { alloc, input })? {
        return Err(ModuleError::NoTree);
    }
    if let Some(space) = dead_space(alloc, input, &marks)? {
        return Err(ModuleError::DeadReference { space });
    }
    if let Some(form) = form_of(alloc, input, &marks)? {
        return Err(ModuleError::Unsupported { form, offset: None });
    }
    Ok(marks)
}
