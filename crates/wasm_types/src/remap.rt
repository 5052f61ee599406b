//! Changing the indices that types name.

ghost use Rattle.std.specs.Prelude.{MatchResult, Ok, Err};
ghost use Rattle.std.specs.Fn.{CalledAtMut};
ghost use Rattle.wasm_composite_types.specs.Remap.{VisitsEach};
ghost use Rattle.wasm_types.specs.Remap.{VisitsSupertype, VisitsSub};

use crate::subtype::SubType;
use wasm_composite_types::ref_types::PackedIndex;
use wasm_composite_types::remap::{remap_form, remap_index};

fn remap_supertype<E, F: FnMut(&mut PackedIndex) -> Result<(), E>>(
    supertype: Option<PackedIndex>,
    map: &mut F,
) -> Result<Option<PackedIndex>, E>
    requires { F.IsAlwaysCallable map.old }
    ensures visits { MatchResult result (λ new. VisitsSupertype (CalledAtMut F.FnMut) map.old supertype (Ok tt) map.new new) (λ e. VisitsSupertype (CalledAtMut F.FnMut) map.old supertype (Err e) map.new supertype) }
    ensures callable { F.IsAlwaysCallable map.new }
{
    match supertype {
        Some(index) => Ok(Some(remap_index(index, map)?)),
        None => Ok(None),
    }
}

pub(crate) fn remap_sub<E, F: FnMut(&mut PackedIndex) -> Result<(), E>>(
    ty: &mut SubType,
    map: &mut F,
) -> Result<(), E>
    requires { F.IsAlwaysCallable map.old }
    ensures visits { VisitsSub (CalledAtMut F.FnMut) map.old ty.old result map.new ty.new }
    ensures callable { F.IsAlwaysCallable map.new }
{
    ty.supertype_idx = remap_supertype(ty.supertype_idx, map)?;
    remap_form(&mut ty.composite_type.inner, map)
}

pub(crate) fn remap_types<E, F: FnMut(&mut PackedIndex) -> Result<(), E>>(
    types: &mut Vec<SubType>,
    map: &mut F,
) -> Result<(), E>
    requires { F.IsAlwaysCallable map.old }
    ensures visits { VisitsEach (CalledAtMut F.FnMut) (VisitsSub (CalledAtMut F.FnMut)) map.old types.old.items result map.new types.new.items }
    ensures callable { F.IsAlwaysCallable map.new }
{
    for i in 0..types.len() {
        remap_sub(&mut types[i], map)?;
    }
    Ok(())
}
