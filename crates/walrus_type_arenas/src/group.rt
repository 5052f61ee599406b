//! Adding recursion groups to a table.
ghost use Rattle.std.specs.Prelude.{◌≡◌, ◌+◌, ◌<◌, ◌≤◌, ◌^◌, [], ◌∷◌, ◌++◌, length, map, Some, None, false, IfOk, OnOk, vec_len, vec_capacity, IfErr, OnErr, true};
ghost use Rattle.std.specs.List.{range_with_len};
ghost use Rattle.walrus_type_index.specs.walrus_items.Items.{item_of, kind_of};
ghost use Rattle.walrus_type_index.specs.Hashes.{hash_of};
ghost use Rattle.walrus_type_index.specs.Places.{kinds_in};
ghost use Rattle.walrus_type_index.specs.Ordered.{IsHeld};
ghost use Rattle.walrus_type_arenas.specs.Counts.{IsMiscount};
ghost use Rattle.walrus_type_arenas.specs.Groups.{new_items, member_kind, AddsGroup};
ghost use Rattle.walrus_type_arenas.specs.Table.{table_of, IsSound};

use crate::error::IrError;
use std::alloc::{AllocError, Global};
use walrus_type_index::arena::{RecGroupId, RecGroupSpace, TombstoneArena, TypeId, TypeSpace};
use walrus_type_index::forms::CompositeType;
use walrus_type_index::items::{RecGroup, Type};
use walrus_type_index::{Hashed, Index, enter_hashed, type_hash};

/// What a new member of a recursion group is to be.
#[derive(Drop)]
pub struct NewType {
    pub kind: CompositeType,
    /// Whether no type has it as supertype.
    pub is_final: bool,
    /// The type that it declares to be below.
    pub supertype: Option<TypeId>,
}

impl NewType {
    /// An equal member.
    ///
    /// # Errors
    ///
    /// Want of memory.
    pub fn clone(&self) -> Result<Self, AllocError>
        ensures { IfOk result (λ copy. member_kind copy ≡ member_kind self.now) }
    {
        Ok(NewType {
            kind: self.kind.clone()?,
            is_final: self.is_final,
            supertype: self.supertype,
        })
    }
}

/// So many ids from this one on. Asks that they fit.
pub fn ids_from(alloc: Global, first: TypeId, count: usize) -> Result<Vec<TypeId>, AllocError>
    requires { first + count < 2 ^ 32 }
    ensures { IfOk result (λ ids. ids.items ≡ range_with_len first count) }
{
    let mut ids = Vec::with_capacity(alloc, count)?;
    for k in 0..count {
        ids.push(TypeId::from_index(first.index() + k))?;
    }
    Ok(ids)
}

// The types of these members, the first of which has this id.
fn types_of(alloc: Global, first: TypeId, members: Vec<NewType>) -> Result<Vec<Type>, AllocError>
    requires { first + length members.items < 2 ^ 32 }
    ensures { IfOk result (λ types. map (λ new. Some (item_of new)) types.items ≡ new_items first (map member_kind members.items)) }
{
    let mut types = Vec::with_capacity(alloc, members.len())?;
    let mut next = first.index();
    for member in members {
        let NewType {
            kind,
            is_final,
            supertype,
        } = member;
        let id = TypeId::from_index(next);
        types.push(Type::new(id, kind, is_final, supertype, false))?;
        next += 1;
    }
    Ok(types)
}

// Adds the type, and enters it into the index. Asks for room. Takes no memory.
fn push_type(types: &mut TombstoneArena<Type, TypeSpace>, index: &mut Index, ty: Type)
    requires room { 0 < types.old.room }
    requires index_room { length types.old.slots + 1 ≤ index.old.room }
    requires held { IsHeld None index.old (kinds_in types.old.slots) }
    ensures types { types.new.slots ≡ types.old.slots ++ Some ty ∷ [] }
    ensures room { types.new.room + 1 ≡ types.old.room }
    ensures index_room { index.new.room ≡ index.old.room }
    ensures held { IsHeld None index.new (kinds_in types.new.slots) }
{
    let hash = type_hash(&ty);
    push_hashed(types, index, ty, hash);
}

// The same, where the hash of the type is known.
fn push_hashed(types: &mut TombstoneArena<Type, TypeSpace>, index: &mut Index, ty: Type, hash: u128)
    requires room { 0 < types.old.room }
    requires index_room { length types.old.slots + 1 ≤ index.old.room }
    requires held { IsHeld None index.old (kinds_in types.old.slots) }
    requires hash { hash ≡ hash_of (kind_of ty) }
    ensures types { types.new.slots ≡ types.old.slots ++ Some ty ∷ [] }
    ensures room { types.new.room + 1 ≡ types.old.room }
    ensures index_room { index.new.room ≡ index.old.room }
    ensures held { IsHeld None index.new (kinds_in types.new.slots) }
{
    let id = types.alloc_reserved(ty);
    enter_hashed(index, types, Hashed { hash, id });
}

// How many members the list of a new group has room for. So it takes a piece of memory of the size that the list of a record of a type
// section has: where records are let go of as their types are added, each piece serves at once, where for a smaller list the allocator
// would cut up what was given back, and join it first.
const ROOM: usize = 16;

/// The list of the members of a group that has this type alone.
///
/// # Errors
///
/// Want of memory.
pub fn one_member(alloc: Global, id: TypeId) -> Result<Vec<TypeId>, AllocError>
    ensures { IfOk result (λ members. members.items ≡ id ∷ []) }
{
    let mut members = Vec::with_capacity(alloc, ROOM)?;
    members.push_reserved(id);
    Ok(members)
}

/// Makes room for so many types, each alone in its group, in the index, too. No type is lent.
///
/// # Errors
///
/// Want of memory.
pub fn reserve_singles(
    alloc: Global,
    types: &mut TombstoneArena<Type, TypeSpace>,
    groups: &mut TombstoneArena<RecGroup, RecGroupSpace>,
    homes: &mut Vec<RecGroupId>,
    index: &mut Index,
    count: usize,
) -> Result<(), AllocError>
    requires { IsHeld None index.old (kinds_in types.old.slots) }
    ensures held { IsHeld None index.new (kinds_in types.new.slots) }
    ensures types { types.new.slots ≡ types.old.slots }
    ensures groups { groups.new.slots ≡ groups.old.slots }
    ensures homes { homes.new.items ≡ homes.old.items }
    ensures index_room { OnOk result (length types.new.slots + count ≤ index.new.room) }
    ensures types_room { OnOk result (count ≤ types.new.room) }
    ensures groups_room { OnOk result (count ≤ groups.new.room) }
    ensures homes_room { OnOk result (vec_len homes.new + count ≤ vec_capacity homes.new) }
{
    index.reserve(alloc, types, count)?;
    types.reserve(count)?;
    groups.reserve(count)?;
    homes.reserve(count)
}

/// Adds the type, alone in its group, whose list of members is given, and enters it into the index. Asks for room. Takes no memory.
pub fn push_single(
    types: &mut TombstoneArena<Type, TypeSpace>,
    groups: &mut TombstoneArena<RecGroup, RecGroupSpace>,
    homes: &mut Vec<RecGroupId>,
    index: &mut Index,
    ty: Type,
    members: Vec<TypeId>,
)
    requires types { 0 < types.old.room }
    requires groups { 0 < groups.old.room }
    requires homes { vec_len homes.old < vec_capacity homes.old }
    requires index { length types.old.slots + 1 ≤ index.old.room }
    requires held { IsHeld None index.old (kinds_in types.old.slots) }
    ensures types { types.new.slots ≡ types.old.slots ++ Some ty ∷ [] }
    ensures types_room { types.new.room + 1 ≡ types.old.room }
    ensures groups { groups.new.slots ≡ groups.old.slots ++ Some (record { types = members; explicit = false }) ∷ [] }
    ensures groups_room { groups.new.room + 1 ≡ groups.old.room }
    ensures homes { homes.new.items ≡ homes.old.items ++ length groups.old.slots ∷ [] }
    ensures homes_len { vec_len homes.new ≡ vec_len homes.old + 1 }
    ensures homes_room { vec_capacity homes.new ≡ vec_capacity homes.old }
    ensures index_room { index.new.room ≡ index.old.room }
    ensures held { IsHeld None index.new (kinds_in types.new.slots) }
{
    let hash = type_hash(&ty);
    push_single_hashed(types, groups, homes, index, ty, hash, members);
}

/// The same, where the hash of the type is known.
pub fn push_single_hashed(
    types: &mut TombstoneArena<Type, TypeSpace>,
    groups: &mut TombstoneArena<RecGroup, RecGroupSpace>,
    homes: &mut Vec<RecGroupId>,
    index: &mut Index,
    ty: Type,
    hash: u128,
    members: Vec<TypeId>,
)
    requires types { 0 < types.old.room }
    requires groups { 0 < groups.old.room }
    requires homes { vec_len homes.old < vec_capacity homes.old }
    requires index { length types.old.slots + 1 ≤ index.old.room }
    requires held { IsHeld None index.old (kinds_in types.old.slots) }
    requires hash { hash ≡ hash_of (kind_of ty) }
    ensures types { types.new.slots ≡ types.old.slots ++ Some ty ∷ [] }
    ensures types_room { types.new.room + 1 ≡ types.old.room }
    ensures groups { groups.new.slots ≡ groups.old.slots ++ Some (record { types = members; explicit = false }) ∷ [] }
    ensures groups_room { groups.new.room + 1 ≡ groups.old.room }
    ensures homes { homes.new.items ≡ homes.old.items ++ length groups.old.slots ∷ [] }
    ensures homes_len { vec_len homes.new ≡ vec_len homes.old + 1 }
    ensures homes_room { vec_capacity homes.new ≡ vec_capacity homes.old }
    ensures index_room { index.new.room ≡ index.old.room }
    ensures held { IsHeld None index.new (kinds_in types.new.slots) }
{
    let home = groups.alloc_reserved(RecGroup::new(false, members));
    homes.push_reserved(home);
    push_hashed(types, index, ty, hash);
}

// Adds these types, all of one group, and enters them into the index. Asks for room. Takes no memory.
fn push_types(
    types: &mut TombstoneArena<Type, TypeSpace>,
    homes: &mut Vec<RecGroupId>,
    index: &mut Index,
    new: Vec<Type>,
    home: RecGroupId,
)
    requires types { length new.items ≤ types.old.room }
    requires homes { vec_len homes.old + length new.items ≤ vec_capacity homes.old }
    requires index { length types.old.slots + length new.items ≤ index.old.room }
    requires held { IsHeld None index.old (kinds_in types.old.slots) }
    ensures types { types.new.slots ≡ types.old.slots ++ map (λ one. Some one) new.items }
    ensures homes { homes.new.items ≡ homes.old.items ++ map (λ _. home) new.items }
    ensures held { IsHeld None index.new (kinds_in types.new.slots) }
{
    for ty in new {
        push_type(types, index, ty);
        homes.push_reserved(home);
    }
}

/// Adds a group of these types, which is written as one or not; none for no types. No type is lent. Asks that their ids fit.
///
/// # Errors
///
/// Want of memory. What is in the table stays as it was.
pub fn append_members(
    alloc: Global,
    types: &mut TombstoneArena<Type, TypeSpace>,
    groups: &mut TombstoneArena<RecGroup, RecGroupSpace>,
    homes: &mut Vec<RecGroupId>,
    index: &mut Index,
    explicit: bool,
    members: Vec<NewType>,
) -> Result<(), AllocError>
    requires fits { length types.old.slots + length members.items < 2 ^ 32 }
    requires sound { IsSound None index.old (kinds_in types.old.slots) (table_of types.old.slots groups.old.slots) homes.old.items }
    ensures sound { IsSound None index.new (kinds_in types.new.slots) (table_of types.new.slots groups.new.slots) homes.new.items }
    ensures added { OnOk result (AddsGroup explicit (map member_kind members.items) (table_of types.old.slots groups.old.slots) (table_of types.new.slots groups.new.slots)) }
    ensures refused { OnErr result (table_of types.new.slots groups.new.slots ≡ table_of types.old.slots groups.old.slots) }
{
    let count = members.len();
    if count == 0 {
        return Ok(());
    }
    let first = types.next_id();
    let ids = ids_from(alloc, first, count)?;
    let made = types_of(alloc, first, members)?;
    index.reserve(alloc, types, count)?;
    types.reserve(count)?;
    homes.reserve(count)?;
    groups.reserve(1)?;
    let home = groups.alloc_reserved(RecGroup::new(explicit, ids));
    push_types(types, homes, index, made, home);
    Ok(())
}

/// Adds a group of these types, which is written as one, if they are as many as were asked for. No type is lent. Asks that so many
/// ids fit.
///
/// # Errors
///
/// `WrongCount` where they are another count, `Memory` for want of memory. What is in the table stays as it was.
pub fn append_counted(
    alloc: Global,
    types: &mut TombstoneArena<Type, TypeSpace>,
    groups: &mut TombstoneArena<RecGroup, RecGroupSpace>,
    homes: &mut Vec<RecGroupId>,
    index: &mut Index,
    count: usize,
    members: Vec<NewType>,
) -> Result<(), IrError>
    requires fits { length types.old.slots + count < 2 ^ 32 }
    requires sound { IsSound None index.old (kinds_in types.old.slots) (table_of types.old.slots groups.old.slots) homes.old.items }
    ensures sound { IsSound None index.new (kinds_in types.new.slots) (table_of types.new.slots groups.new.slots) homes.new.items }
    ensures added { OnOk result (AddsGroup true (map member_kind members.items) (table_of types.old.slots groups.old.slots) (table_of types.new.slots groups.new.slots)) }
    ensures counted { OnOk result (length members.items ≡ count) }
    ensures cause { IfErr result (IsMiscount (length members.items) count) }
    ensures refused { OnErr result (table_of types.new.slots groups.new.slots ≡ table_of types.old.slots groups.old.slots) }
{
    if members.len() != count {
        return Err(IrError::WrongCount);
    }
    append_members(alloc, types, groups, homes, index, true, members)?;
    Ok(())
}
