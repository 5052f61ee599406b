//! Recursion groups (Core Specification, types: recursive types).

ghost use Rattle.std.specs.Prelude.{◌≡◌, IfOk, IfSome, Some, zip, length, [], ◌∷◌, true, false, List};
ghost use Rattle.std.specs.Cmp.{on_equiv, on_total, on_po, on_per};
ghost use Rattle.std.specs.Cmp.Lexicographic.{pointwise, slice_cmp, slice_partial_cmp, lists_per, lists_equiv, lists_po, lists_total, lists_agrees, lists_ties};
ghost use Rattle.std.specs.Hash as fed;
ghost use Rattle.std.specs.Hash.{on_Alike, items_Alike};
ghost use Rattle.std.specs.Fn.{CalledAtMut};
ghost use Rattle.wasm_types.specs.Remap.{VisitsGroup};
ghost use Rattle.wasm_types.specs.Members.{group_of};
ghost use Rattle.std.specs.Iterator.{UpTo, YieldsFirstBy, at_most, item_count};
ghost use Rattle.std.specs.Iterator.SizeHint.{IsWithinCount};

use crate::into_types::{IntoTypes, IntoTypesAndOffsets};
use crate::remap::{remap_sub, remap_types};
use crate::subtype::SubType;
use std::alloc::{AllocError, Global};
use std::cmp::Ordering;
use std::hash::{Hash, Hasher};
use std::marker::Model;
use std::slice;
use wasm_composite_types::ref_types::PackedIndex;

/// Types that may name one another: a type that stands alone, or an explicit group.
///
/// Groups are equal, ordered and hashed by the list of their types alone.
#[derive(Drop)]
pub struct RecGroup {
    members: Members,
}

#[derive(Drop)]
enum Members {
    Implicit {
        offset: u64,
        ty: SubType,
    },
    Explicit {
        offsets: Vec<u64>,
        types: Vec<SubType>,
    },
}

impl Model for RecGroup {
    ghost use Rattle.wasm_types.specs.Groups.{Group};

    ghost Value = { Group };

    ghost use Rattle.wasm_types.specs.Members.{group_of, IsPaired};

    ghost view = { λ group. group_of group.members };

    ghost invariant = { λ group. IsPaired (group_of group.members) };
}

impl RecGroup {
    // A type that stands alone, read at this offset.
    pub(crate) fn implicit(offset: u64, ty: SubType) -> Self
        ensures { result ≡ record { explicit = false; types = ty ∷ []; offsets = offset ∷ [] } }
    {
        RecGroup {
            members: Members::Implicit { offset, ty },
        }
    }

    // An explicit group of these types, read at these offsets.
    pub(crate) fn explicit(offsets: Vec<u64>, types: Vec<SubType>) -> Self
        requires { length offsets.items ≡ length types.items }
        ensures { result ≡ record { explicit = true; types = types.items; offsets = offsets.items } }
    {
        RecGroup {
            members: Members::Explicit { offsets, types },
        }
    }

    /// Whether it was written as a group, also where it has one type.
    pub fn is_explicit_rec_group(&self) -> bool
        ensures { result ≡ self.now.explicit }
    {
        match &self.members {
            Members::Implicit { .. } => false,
            Members::Explicit { .. } => true,
        }
    }

    /// The types, in their order.
    pub fn types(&self) -> Types<'_>
        ensures { result ≡ self.now.types }
    {
        Types {
            types: self.as_slice(),
        }
    }

    fn as_slice(&self) -> &[SubType]
        ensures { result.now ≡ self.now.types }
    {
        match &self.members {
            Members::Implicit { ty, .. } => slice::from_ref(ty),
            Members::Explicit { types, .. } => types.as_slice(),
        }
    }

    /// The types, handed out in their order. Takes no memory.
    pub fn into_types(self) -> IntoTypes
        ensures { result ≡ self.types }
    {
        // What holds of every group is known where its parts are named.
        let _ = &self.members;
        IntoTypes::new(self.into_types_and_offsets())
    }

    /// The types, handed out in their order, each with the offset at which it was read. Takes no memory.
    pub fn into_types_and_offsets(self) -> IntoTypesAndOffsets
        ensures { result ≡ zip self.offsets self.types }
    {
        match self.members {
            Members::Implicit { offset, ty } => IntoTypesAndOffsets::one(offset, ty),
            Members::Explicit { offsets, types } => IntoTypesAndOffsets::many(offsets, types),
        }
    }

    /// Calls `map` at each index that the types name, in the order of their bytes, a type's supertype first. Each is replaced
    /// by what its call leaves, up to the first call that refuses; nothing else changes. Asks that `map` may always be called.
    ///
    /// # Errors
    ///
    /// What a call of `map` refuses with. Its index and those behind it stay.
    pub fn remap_indices<E, F: FnMut(&mut PackedIndex) -> Result<(), E>>(
        &mut self,
        map: &mut F,
    ) -> Result<(), E>
        requires { F.IsAlwaysCallable map.old }
        ensures visits { VisitsGroup (CalledAtMut F.FnMut) map.old self.old result map.new self.new }
        ensures callable { F.IsAlwaysCallable map.new }
    {
        remap_members(&mut self.members, map)
    }

    /// An equal group, with its mark and its offsets.
    ///
    /// # Errors
    ///
    /// Want of memory.
    pub fn clone(&self) -> Result<Self, AllocError>
        ensures { IfOk result (λ copy. copy ≡ self.now) }
    {
        match &self.members {
            Members::Implicit { offset, ty } => Ok(RecGroup::implicit(*offset, ty.clone()?)),
            Members::Explicit { offsets, types } => {
                let alloc = *types.allocator();
                let offsets = Vec::from_slice(alloc, offsets.as_slice())?;
                Ok(RecGroup::explicit(offsets, clone_types(alloc, types.as_slice())?))
            }
        }
    }
}

fn remap_members<E, F: FnMut(&mut PackedIndex) -> Result<(), E>>(
    members: &mut Members,
    map: &mut F,
) -> Result<(), E>
    requires { F.IsAlwaysCallable map.old }
    ensures visits { VisitsGroup (CalledAtMut F.FnMut) map.old (group_of members.old) result map.new (group_of members.new) }
    ensures callable { F.IsAlwaysCallable map.new }
{
    match members {
        Members::Implicit { ty, .. } => remap_sub(ty, map),
        Members::Explicit { types, .. } => remap_types(types, map),
    }
}

fn clone_types(alloc: Global, types: &[SubType]) -> Result<Vec<SubType>, AllocError>
    ensures { IfOk result (λ copies. copies.items ≡ types.now) }
{
    let mut copies = Vec::with_capacity(alloc, types.len())?;
    for ty in types {
        copies.push(ty.clone()?)?;
    }
    Ok(copies)
}

impl PartialEq for RecGroup {
    ghost use Rattle.wasm_types.specs.contracts.subtype.SubTypePartialEq.TheImpl.{ghosts as sub};
    ghost use Rattle.wasm_types.specs.contracts.subtype.SubTypePartialEq.TheImpl.Laws.{laws-law};

    ghost eq = { λ a b. pointwise sub.eq a.types b.types };

    ghost laws = { on_per (λ group. group.types) (lists_per laws-law) };

    fn eq(&self, other: &Self) -> bool {
        self.as_slice() == other.as_slice()
    }
}

impl Eq for RecGroup {
    ghost use Rattle.wasm_types.specs.contracts.subtype.SubTypeEq.TheImpl.Laws.{laws-law};

    ghost laws = { on_equiv (λ group. group.types) (lists_equiv laws-law) };
}

impl PartialOrd for RecGroup {
    ghost use Rattle.wasm_types.specs.contracts.subtype.SubTypePartialOrd.TheImpl.{ghosts as sub};
    ghost use Rattle.wasm_types.specs.contracts.subtype.SubTypePartialOrd.TheImpl.Laws.{laws-law};

    ghost partial_cmp = { λ a b. slice_partial_cmp sub.partial_cmp a.types b.types };

    ghost laws = { on_po (λ group. group.types) (lists_po laws-law) };

    fn partial_cmp(&self, other: &Self) -> Option<Ordering> {
        self.as_slice().partial_cmp(&other.as_slice())
    }
}

impl Ord for RecGroup {
    ghost use Rattle.wasm_types.specs.contracts.subtype.SubTypeOrd.TheImpl.{ghosts as sub};
    ghost use Rattle.wasm_types.specs.contracts.subtype.SubTypeOrd.TheImpl.Laws.{total-law, matches_partial_cmp-law, matches_eq-law};

    ghost cmp = { λ a b. slice_cmp sub.cmp a.types b.types };

    ghost total = { on_total (λ group. group.types) (lists_total total-law) };

    ghost matches_partial_cmp = { λ a b. lists_agrees matches_partial_cmp-law a.types b.types };

    ghost matches_eq = { λ a b. lists_ties sub.cmp matches_eq-law a.types b.types };

    fn cmp(&self, other: &Self) -> Ordering {
        self.as_slice().cmp(&other.as_slice())
    }
}

impl Hash for RecGroup {
    ghost use Rattle.wasm_types.specs.contracts.subtype.SubTypeHash.TheImpl.{ghosts as sub};
    ghost use Rattle.wasm_types.specs.contracts.subtype.SubTypeHash.TheImpl.Laws.{respects_eq-law};

    ghost hash_input = { λ group. fed.slice sub.hash_input group.types };

    ghost respects_eq = { (on_Alike (λ group. group.types) (items_Alike (record { fed = respects_eq-law }))).fed };

    fn hash<H: Hasher>(&self, state: &mut H) {
        self.as_slice().hash(state);
    }
}

/// The types of a group, seen as the list of those that are left.
#[derive(Drop)]
pub struct Types<'a> {
    types: &'a [SubType],
}

impl<'a> Model for Types<'a> {
    ghost use Rattle.std.specs.Prelude.{List};
    ghost use Rattle.wasm_types.specs.declared.subtype.SubType.{SubType};

    ghost Value = { List SubType };

    ghost view = { λ it. it.types.now };
}

impl<'a> Iterator for Types<'a> {
    type Item = &'a SubType;

    ghost next_gives = { YieldsFirstBy (λ ty. ty.now) (λ rest. rest) };

    ghost remaining = { item_count (λ rest. rest) };

    fn next(&mut self) -> Option<&'a SubType> {
        let (first, rest) = self.types.split_first()?;
        self.types = rest;
        Some(first)
    }

    fn size_hint(&self) -> (usize, Option<usize>)
        ensures lower { IsWithinCount result.0 (at_most (length self.now)) }
        ensures upper { IfSome result.1 (UpTo (at_most (length self.now))) }
        ensures exact { result ≡ (length self.now, Some (length self.now)) }
    {
        let len = self.types.len();
        (len, Some(len))
    }
}

impl<'a> ExactSizeIterator for Types<'a> {
    fn len(&self) -> usize {
        self.types.len()
    }
}
