//! Iterators that hand out the types of a recursion group.

ghost use Rattle.std.specs.Prelude.{◌≡◌, IfSome, Some, length, zip, map};
ghost use Rattle.std.specs.Iterator.{UpTo, YieldsFirst, at_most, item_count};
ghost use Rattle.std.specs.Iterator.SizeHint.{IsWithinCount};

use crate::subtype::SubType;
use std::alloc::Global;
use std::marker::Model;
use std::vec;

/// The types of a group with the offsets at which they were read, seen as the list of those that are left.
#[derive(Drop)]
pub struct IntoTypesAndOffsets {
    members: MembersLeft,
}

#[derive(Drop)]
enum MembersLeft {
    Implicit(Option<(u64, SubType)>),
    Explicit {
        offsets: vec::IntoIter<u64, Global>,
        types: vec::IntoIter<SubType, Global>,
    },
}

impl Model for IntoTypesAndOffsets {
    ghost use Rattle.std.specs.Prelude.{ℕ, List};
    ghost use Rattle.wasm_types.specs.declared.subtype.SubType.{SubType};

    ghost Value = { List (ℕ × SubType) };

    ghost use Rattle.wasm_types.specs.MembersLeft.{members_left, IsPaired};

    ghost view = { λ it. members_left it.members };

    ghost invariant = { λ it. IsPaired it.members };
}

impl IntoTypesAndOffsets {
    ghost use Rattle.std.specs.Prelude.{[], ◌∷◌};

    pub(crate) fn one(offset: u64, ty: SubType) -> Self
        ensures { result ≡ (offset, ty) ∷ [] }
    {
        IntoTypesAndOffsets {
            members: MembersLeft::Implicit(Some((offset, ty))),
        }
    }

    pub(crate) fn many(offsets: Vec<u64>, types: Vec<SubType>) -> Self
        requires { length offsets.items ≡ length types.items }
        ensures { result ≡ zip offsets.items types.items }
    {
        IntoTypesAndOffsets {
            members: MembersLeft::Explicit {
                offsets: offsets.into_iter(),
                types: types.into_iter(),
            },
        }
    }
}

impl Iterator for IntoTypesAndOffsets {
    type Item = (u64, SubType);

    ghost next_gives = { YieldsFirst (λ rest. rest) };

    ghost remaining = { item_count (λ rest. rest) };

    fn next(&mut self) -> Option<(u64, SubType)> {
        match &mut self.members {
            MembersLeft::Implicit(member) => member.take(),
            MembersLeft::Explicit { offsets, types } => {
                let offset = offsets.next()?;
                let ty = types.next()?;
                Some((offset, ty))
            }
        }
    }

    fn size_hint(&self) -> (usize, Option<usize>)
        ensures lower { IsWithinCount result.0 (at_most (length self.now)) }
        ensures upper { IfSome result.1 (UpTo (at_most (length self.now))) }
        ensures exact { result ≡ (length self.now, Some (length self.now)) }
    {
        let len = self.len();
        (len, Some(len))
    }
}

impl ExactSizeIterator for IntoTypesAndOffsets {
    fn len(&self) -> usize {
        match &self.members {
            MembersLeft::Implicit(Some(_)) => 1,
            MembersLeft::Implicit(None) => 0,
            MembersLeft::Explicit { types, .. } => types.len(),
        }
    }
}

/// The types of a group, seen as the list of those that are left.
#[derive(Drop)]
pub struct IntoTypes {
    members: IntoTypesAndOffsets,
}

impl Model for IntoTypes {
    ghost use Rattle.std.specs.Prelude.{List, map};
    ghost use Rattle.wasm_types.specs.declared.subtype.SubType.{SubType};

    ghost Value = { List SubType };

    ghost view = { λ it. map (λ member. member.1) it.members };
}

impl IntoTypes {
    pub(crate) fn new(members: IntoTypesAndOffsets) -> Self
        ensures { result ≡ map (λ member. member.1) members }
    {
        IntoTypes { members }
    }
}

impl Iterator for IntoTypes {
    type Item = SubType;

    ghost next_gives = { YieldsFirst (λ rest. rest) };

    ghost remaining = { item_count (λ rest. rest) };

    fn next(&mut self) -> Option<SubType> {
        let (_, ty) = self.members.next()?;
        Some(ty)
    }

    fn size_hint(&self) -> (usize, Option<usize>)
        ensures lower { IsWithinCount result.0 (at_most (length self.now)) }
        ensures upper { IfSome result.1 (UpTo (at_most (length self.now))) }
        ensures exact { result ≡ (length self.now, Some (length self.now)) }
    {
        let len = self.len();
        (len, Some(len))
    }
}

impl ExactSizeIterator for IntoTypes {
    fn len(&self) -> usize {
        self.members.len()
    }
}
