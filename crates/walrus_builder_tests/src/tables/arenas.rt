//! Arenas, sets and maps. A function that owns one does nothing else.

use std::alloc::{AllocError, Global};
use std::cell::Cell;
use walrus_arena::{
    ArenaSet, FunctionId, FunctionSpace, IdHashMap, IdHashSet, Iter, Tombstone, TombstoneArena,
    TypeId, TypeSpace,
};

#[derive(Clone, PartialEq, Eq, PartialOrd, Ord, Drop)]
struct Word(u32);

impl Tombstone for Word {
    fn on_delete(&mut self) {}
}

// Counts how often it is told that it is deleted.
#[derive(Drop)]
struct Watched<'a>(&'a Cell<u32>);

impl Tombstone for Watched<'_> {
    fn on_delete(&mut self) {
        self.0.set(self.0.get().wrapping_add(1));
    }
}

fn delete_first<'a>(
    arena: &mut TombstoneArena<Watched<'a>, TypeSpace>,
    told: &'a Cell<u32>,
) -> Result<(), AllocError> {
    arena.reserve(3)?;
    let a = arena.alloc(Watched(told))?;
    arena.alloc_with_id(|_| Watched(told))?;
    if arena.contains(a) {
        arena.delete(a);
    }
    Ok(())
}

// How often they are told where the first of two is deleted.
fn told(alloc: Global) -> Result<u32, AllocError> {
    let told = Cell::new(0);
    let mut arena = TombstoneArena::new(alloc);
    delete_first(&mut arena, &told)?;
    Ok(told.get())
}

#[test]
fn an_item_is_told_once(rt: HostRuntime) {
    assert!(rt; told(rt.alloc()) == Ok(1));
}

fn delete_live(arena: &mut TombstoneArena<Word, TypeSpace>, id: TypeId) {
    if arena.contains(id) {
        arena.delete(id);
    }
}

// Whether the item of this id comes next.
fn gives(live: &mut Iter<'_, Word, TypeSpace>, id: TypeId) -> bool {
    match live.next() {
        Some((next, _)) => next == id,
        None => false,
    }
}

// Whether just the items of these ids live, by rising id.
fn holds_three(arena: &TombstoneArena<Word, TypeSpace>, a: TypeId, b: TypeId, c: TypeId) -> bool {
    let mut live = arena.iter();
    gives(&mut live, a) && gives(&mut live, b) && gives(&mut live, c) && live.next().is_none()
}

// Whether the first, third and fifth of five ids live where the others were deleted, and a sixth id
// is none of the five.
fn gives_no_id_twice(arena: &mut TombstoneArena<Word, TypeSpace>) -> Result<bool, AllocError> {
    let a = arena.alloc(Word(1))?;
    let b = arena.alloc(Word(2))?;
    let c = arena.alloc(Word(3))?;
    let d = arena.alloc(Word(4))?;
    let e = arena.alloc(Word(5))?;
    delete_live(arena, b);
    delete_live(arena, d);
    let left = holds_three(arena, a, c, e);
    let next = arena.alloc(Word(6))?;
    Ok(left && next != a && next != b && next != c && next != d && next != e)
}

fn is_no_id_given_twice(alloc: Global) -> Result<bool, AllocError> {
    let mut arena = TombstoneArena::new(alloc);
    gives_no_id_twice(&mut arena)
}

#[test]
fn no_id_is_given_twice(rt: HostRuntime) {
    assert!(rt; is_no_id_given_twice(rt.alloc()) == Ok(true));
}

fn inserts(set: &mut ArenaSet<Word>) -> Result<bool, AllocError> {
    let first = set.insert(Word(7))?;
    let other = set.insert(Word(8))?;
    Ok(set.insert(Word(7))? == first && first != other)
}

fn is_inserted(alloc: Global) -> Result<bool, AllocError> {
    let mut set = ArenaSet::new(alloc);
    inserts(&mut set)
}

fn is_mapped(alloc: Global, id: FunctionId) -> Result<bool, AllocError> {
    let mut names: IdHashMap<FunctionSpace, u8> = IdHashMap::new(alloc);
    names.insert(id, 5)?;
    let mut seen: IdHashSet<FunctionSpace> = IdHashSet::new(alloc);
    seen.insert(id)?;
    Ok(matches!(names.get(&id), Some(5)) && seen.contains(&id))
}

fn is_told(alloc: Global, id: TypeId, text: &str) -> Result<bool, AllocError> {
    let told = format!(in alloc; "{id:?}")?;
    Ok(told.as_str().starts_with(text))
}

#[test]
fn sets_maps_and_texts_of_ids(rt: HostRuntime) {
    let id = FunctionId::from_index(3);
    assert!(rt; is_inserted(rt.alloc()) == Ok(true) && is_mapped(rt.alloc(), id) == Ok(true));
    assert!(rt; is_told(rt.alloc(), TypeId::from_index(3), "Id { index: 3,") == Ok(true));
}
