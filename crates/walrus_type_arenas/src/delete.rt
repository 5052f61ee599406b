//! Deleting types from a table.
ghost use Rattle.std.specs.Prelude.{◌≡◌, ◌<◌, ◌&&◌, length, slice_index, ℕ, false, not, [], map, filter, Some, None, slice_set, if◌then◌else◌};
ghost use Rattle.std.specs.Bool.{OnFalse};
ghost use Rattle.std.specs.Option.{option_map, option_and_then};
ghost use Rattle.walrus_type_index.specs.walrus_items.walrus_arena.Arena.{IsLive as HasLive, item_at};
ghost use Rattle.walrus_type_index.specs.walrus_items.Items.{Group, group_of, item_of};
ghost use Rattle.walrus_type_index.specs.Places.{kinds_in};
ghost use Rattle.walrus_type_index.specs.Ordered.{IsHeld, is_marked};
ghost use Rattle.walrus_type_arenas.specs.Table.{is_named_in, is_named_at, is_explicit_at, is_spared, clear_all, marked, without_member, without_marked, table_of};

use walrus_type_index::arena::{RecGroupId, RecGroupSpace, TombstoneArena, TypeId, TypeSpace};
use walrus_type_index::items::{RecGroup, Type};
use walrus_type_index::{Index, is_marked, lend};

/// Takes a type out of its group, which goes where none is left.
pub fn leave_group(
    groups: &mut TombstoneArena<RecGroup, RecGroupSpace>,
    home: RecGroupId,
    id: TypeId,
)
    requires { HasLive groups.old home }
    ensures { (group : Group) → option_map group_of (item_at groups.old home) ≡ Some group
        → map (option_map group_of) groups.new.slots ≡ slice_set (map (option_map group_of) groups.old.slots) home (without_member id group) }
{
    let group = &mut groups[home];
    group.remove(id);
    if group.is_empty() {
        groups.delete(home);
    }
}

// Deletes a type, if it lives. No type is lent.
fn clear(types: &mut TombstoneArena<Type, TypeSpace>, index: &mut Index, id: TypeId)
    requires { IsHeld None index.old (kinds_in types.old.slots) }
    ensures types { types.new.slots ≡ slice_set types.old.slots id None }
    ensures held { IsHeld None index.new (kinds_in types.new.slots) }
{
    if types.contains(id) {
        let mut lent = None;
        lend(index, &mut lent, types, id);
        types.delete(id);
    }
}

/// Deletes these types, those of them that live, each by a search of the index. No type is lent.
pub fn clear_each(types: &mut TombstoneArena<Type, TypeSpace>, index: &mut Index, ids: &[TypeId])
    requires { IsHeld None index.old (kinds_in types.old.slots) }
    ensures types { map (option_map item_of) types.new.slots ≡ clear_all ids.now (map (option_map item_of) types.old.slots) }
    ensures held { IsHeld None index.new (kinds_in types.new.slots) }
{
    for id in ids {
        clear(types, index, *id);
    }
}

// Whether the group of this id lives and is explicit.
fn is_explicit(groups: &TombstoneArena<RecGroup, RecGroupSpace>, place: RecGroupId) -> bool
    ensures { result ≡ is_explicit_at (map (option_map group_of) groups.now.slots) place }
{
    match groups.get(place) {
        Some(group) => group.is_explicit(),
        None => false,
    }
}

// Whether the type is spared. Groups are looked at for entry types alone.
fn is_spared(
    types: &TombstoneArena<Type, TypeSpace>,
    groups: &TombstoneArena<RecGroup, RecGroupSpace>,
    homes: &[RecGroupId],
    id: TypeId,
) -> bool
    requires { length homes.now ≡ length types.now.slots }
    ensures { result ≡ is_spared (table_of types.now.slots groups.now.slots) homes.now id }
{
    match types.get(id) {
        Some(ty) => ty.is_entry() && !is_explicit(groups, home_of(homes, id)),
        None => false,
    }
}

// Deletes the type, if it lives, or takes the mark off it where it is spared. Answers whether it was deleted. The index isn't looked at.
fn kill(
    types: &mut TombstoneArena<Type, TypeSpace>,
    groups: &TombstoneArena<RecGroup, RecGroupSpace>,
    homes: &[RecGroupId],
    marks: &mut [bool],
    id: TypeId,
) -> bool
    requires sized { length homes.now ≡ length types.old.slots }
    requires marked { id < length marks.old }
    ensures types { types.new.slots ≡ (if is_spared (table_of types.old.slots groups.now.slots) homes.now id then types.old.slots else slice_set types.old.slots id None) }
    ensures marks { marks.new ≡ (if is_spared (table_of types.old.slots groups.now.slots) homes.now id then slice_set marks.old id false else marks.old) }
    ensures same { OnFalse result (types.new.slots ≡ types.old.slots) }
{
    if is_spared(types, groups, homes, id) {
        marks[id.index()] = false;
        return false;
    }
    if !types.contains(id) {
        return false;
    }
    types.delete(id);
    true
}

// Deletes the types of the marked ids, those of them that live and aren't spared, and takes the marks off the spared ones. Answers whether
// any was deleted. The index isn't looked at.
fn kill_unkept(
    types: &mut TombstoneArena<Type, TypeSpace>,
    groups: &TombstoneArena<RecGroup, RecGroupSpace>,
    homes: &[RecGroupId],
    marks: &mut [bool],
) -> bool
    requires { length homes.now ≡ length types.old.slots }
    ensures sized { length types.new.slots ≡ length types.old.slots }
    ensures left { (id : ℕ) → is_marked marks.new id ≡ is_marked marks.old id && not (is_spared (table_of types.old.slots groups.now.slots) homes.now id) }
    ensures each { (id : ℕ) → item_at types.new id ≡ (if is_marked marks.new id then None else item_at types.old id) }
    ensures same { OnFalse result (types.new.slots ≡ types.old.slots) }
{
    let mut killed = false;
    for index in 0..types.next_id().index() {
        let id = TypeId::from_index(index);
        if is_marked(marks, id) {
            killed = kill(types, groups, homes, marks, id) || killed;
        }
    }
    killed
}

/// Deletes the types of the marked ids, those of them that live and aren't spared, takes the marks off the spared ones, and then
/// takes what was deleted out of the index in one walk of it. No type is lent.
pub fn clear_unkept(
    types: &mut TombstoneArena<Type, TypeSpace>,
    groups: &TombstoneArena<RecGroup, RecGroupSpace>,
    homes: &[RecGroupId],
    index: &mut Index,
    marks: &mut [bool],
)
    requires sized { length homes.now ≡ length types.old.slots }
    requires held { IsHeld None index.old (kinds_in types.old.slots) }
    ensures left { (id : ℕ) → is_marked marks.new id ≡ is_marked marks.old id && not (is_spared (table_of types.old.slots groups.now.slots) homes.now id) }
    ensures types { map (option_map item_of) types.new.slots ≡ clear_all (marked marks.new) (map (option_map item_of) types.old.slots) }
    ensures held { IsHeld None index.new (kinds_in types.new.slots) }
{
    if kill_unkept(types, groups, homes, marks) {
        index.sweep(marks);
    }
}

// Whether that type lives and names this one.
fn names_at(types: &TombstoneArena<Type, TypeSpace>, other: TypeId, id: TypeId) -> bool
    ensures { result ≡ is_named_at (table_of types.now.slots []) id other }
{
    match types.get(other) {
        Some(ty) => ty.names(id),
        None => false,
    }
}

/// Whether another member of the group names the type.
pub fn members_name(types: &TombstoneArena<Type, TypeSpace>, group: &RecGroup, id: TypeId) -> bool
    ensures { result ≡ is_named_in (table_of types.now.slots []) id (group_of group.now) }
{
    group.types.iter().any(|other| other.index() != id.index() && names_at(types, *other, id))
}

/// The group of a type that was added.
pub fn home_of(homes: &[RecGroupId], id: TypeId) -> RecGroupId
    requires { id < length homes.now }
    ensures { result ≡ slice_index homes.now id }
{
    homes[id.index()]
}

// Takes the marked members out of the group.
fn keep_unmarked(group: &mut RecGroup, marks: &[bool])
    ensures members { group.new.types.items ≡ filter (λ id. not (is_marked marks.now id)) group.old.types.items }
    ensures explicit { group.new.explicit ≡ group.old.explicit }
{
    group.types.retain(|member| !is_marked(marks, *member));
}

// Takes the marked members out of the group of this id, if it lives. It goes where none is left.
fn sweep_at(groups: &mut TombstoneArena<RecGroup, RecGroupSpace>, marks: &[bool], place: RecGroupId)
    ensures { map (option_map group_of) groups.new.slots
        ≡ slice_set (map (option_map group_of) groups.old.slots) place (option_and_then (without_marked marks.now) (option_map group_of (item_at groups.old place))) }
{
    if !groups.contains(place) {
        return;
    }
    let group = &mut groups[place];
    keep_unmarked(group, marks);
    if group.is_empty() {
        groups.delete(place);
    }
}

/// Takes the marked members out of each group. Those go where none is left.
pub fn sweep(groups: &mut TombstoneArena<RecGroup, RecGroupSpace>, marks: &[bool])
    ensures { map (option_map group_of) groups.new.slots ≡ map (option_and_then (without_marked marks.now)) (map (option_map group_of) groups.old.slots) }
{
    for index in 0..groups.next_id().index() {
        sweep_at(groups, marks, RecGroupId::from_index(index));
    }
}
