//! A directory over small trees, each with the ids whose hashes begin with the same bits: a search of one tree of all types would meet
//! some twenty nodes, most of them out of the caches. Types whose hashes begin alike share one tree, so that a search takes no more than
//! a logarithm of their count, whatever the types are.
ghost use Rattle.std.specs.Prelude.{◌≡◌, ◌≤◌, ◌<◌, ◌+◌, [], ◌==◌, false, not, filter, find, length, OnOk, OnErr};
ghost use Rattle.std.specs.Option.{option_map};
ghost use Rattle.std.specs.List.Sorted.{IsStrictlySortedBy};
ghost use Rattle.walrus_type_index.specs.Hashes.{hash_of};
ghost use Rattle.walrus_type_index.specs.Places.{kinds_in, hashed_at, hashed_cmp, last_of, entered};
ghost use Rattle.walrus_type_index.specs.Targets.{target_kind};
ghost use Rattle.walrus_type_index.specs.Ordered.{IsIndex, has, is_marked};
ghost use Rattle.walrus_type_index.specs.Directory.{place_of, is_later};

use crate::forest::Forest;
use crate::hash::{hashed, target_hash};
use crate::node::Hashed;
use crate::order::Target;
use std::alloc::{AllocError, Global};
use std::marker::Model;
use walrus_items::Type;
use walrus_items::arena::{TombstoneArena, TypeId, TypeSpace};

/// Ids of types in order, with room for ids below a number. A search looks at few of them.
#[derive(Drop)]
pub struct Index {
    // A tree for each of the first places, and one for all further ones.
    forest: Forest,
    // How many of the first 63 bits of a hash its place leaves out.
    shift: u32,
    // What looks ahead met: it is kept so that they are made. No answer rests on it.
    met: u64,
}

impl Model for Index {
    ghost use Rattle.std.specs.Prelude.{◌≤◌};
    ghost use Rattle.walrus_type_index.specs.Directory.{joined, AreSpread};
    ghost use Rattle.walrus_type_index.specs.Ordered.{Indexed};

    ghost Value = { Indexed };

    ghost view = { λ i. record { ids = joined i.forest.trees i.forest.last; room = i.forest.room } };

    ghost invariant = { λ i. (i.shift ≤ 63) × AreSpread i.shift i.forest.trees 0 i.forest.last };
}

/// How many types a look ahead looks for at once.
pub const AHEAD: usize = 32;

// The bits of a hash that are its place.
pub(crate) fn place_of(hash: u128, shift: u32) -> usize
    requires { shift ≤ 63 }
    ensures { result ≡ place_of shift hash }
{
    let first = (hash >> 65) as usize;
    first >> shift
}

// Whether the id's place is later than this one.
pub(crate) fn is_later(hashed: Hashed, shift: u32, place: usize) -> bool
    requires { shift ≤ 63 }
    ensures { result ≡ is_later shift place hashed }
{
    place < place_of(hashed.hash, shift)
}

impl Index {
    /// No ids. Takes no memory.
    pub fn new(alloc: Global) -> Index
        ensures { result ≡ record { ids = []; room = 0 } }
    {
        Index {
            forest: Forest::new(alloc),
            shift: 63,
            met: 0,
        }
    }

    // Twice the trees, where they are fewer than these. What is in them stays. Answers whether they were.
    fn double_below(
        &mut self,
        alloc: Global,
        types: &TombstoneArena<Type, TypeSpace>,
        wanted: usize,
    ) -> Result<bool, AllocError>
        requires { IsIndex (kinds_in types.now.slots) self.old.ids }
        ensures { self.new ≡ self.old }
    {
        if self.forest.count() >= wanted || self.shift <= 32 {
            return Ok(false);
        }
        let shift = self.shift - 1;
        self.forest.halve(alloc, shift)?;
        self.shift = shift;
        Ok(true)
    }

    /// Has room for the ids of so many more types, and about as many trees as there are then, at most 2^31. What is in them stays.
    ///
    /// # Errors
    ///
    /// Want of memory.
    pub fn reserve(
        &mut self,
        alloc: Global,
        types: &TombstoneArena<Type, TypeSpace>,
        more: usize,
    ) -> Result<(), AllocError>
        requires { IsIndex (kinds_in types.now.slots) self.old.ids }
        ensures ids { self.new.ids ≡ self.old.ids }
        ensures kept { self.old.room ≤ self.new.room }
        ensures room { OnOk result (length types.now.slots + more ≤ self.new.room) }
    {
        let wanted = types.next_id().index().saturating_add(more);
        self.forest.reserve(wanted)?;
        for _ in 0..31 {
            if !self.double_below(alloc, types, wanted)? {
                break;
            }
        }
        Ok(())
    }

    /// Looks where types of these hashes would stand. A search takes most of its time for its first looks, which wait for memory; what is
    /// looked for in some groups ahead is waited for at once. What is in stays. Takes no memory.
    pub fn look_ahead(&mut self, hashes: &[u128; AHEAD])
        ensures { self.new ≡ self.old }
    {
        let met = self.forest.met(hashes, self.shift);
        self.met = self.met.wrapping_add(met);
    }

    /// Puts the id, which isn't in, where it belongs. It comes with the hash of its type. Asks for room. Takes no memory.
    pub fn put(&mut self, types: &TombstoneArena<Type, TypeSpace>, hashed: Hashed)
        requires sorted { IsStrictlySortedBy (hashed_cmp (kinds_in types.now.slots)) self.old.ids }
        requires room { hashed.id < self.old.room }
        requires out { has hashed.id self.old.ids ≡ false }
        requires hash { hashed ≡ hashed_at (kinds_in types.now.slots) hashed.id }
        ensures ids { self.new.ids ≡ entered (kinds_in types.now.slots) hashed.id self.old.ids }
        ensures room { self.new.room ≡ self.old.room }
    {
        let place = place_of(hashed.hash, self.shift);
        self.forest.put(place, types, hashed);
    }

    /// Takes the id out, if it is in. Takes no memory.
    pub fn take(&mut self, types: &TombstoneArena<Type, TypeSpace>, id: TypeId) -> Option<TypeId>
        requires { IsIndex (kinds_in types.now.slots) self.old.ids }
        ensures rest { self.new.ids ≡ filter (λ x. not (x.id == id)) self.old.ids }
        ensures room { self.new.room ≡ self.old.room }
        ensures taken { result ≡ option_map (λ x. x.id) (find (λ x. x.id == id) self.old.ids) }
    {
        let hashed = hashed(types, id);
        let place = place_of(hashed.hash, self.shift);
        if self.forest.take(place, types, hashed) {
            return Some(id);
        }
        None
    }

    /// Takes out the marked ids, in one walk. Takes no memory.
    pub fn sweep(&mut self, marks: &[bool])
        ensures ids { self.new.ids ≡ filter (λ x. not (is_marked marks.now x.id)) self.old.ids }
        ensures room { self.new.room ≡ self.old.room }
    {
        self.forest.sweep(marks);
    }

    /// The last id of a type of the kind that is looked for, of those that name themselves or of the others.
    pub fn latest(
        &self,
        types: &TombstoneArena<Type, TypeSpace>,
        target: Target<'_>,
        own: bool,
    ) -> Option<TypeId>
        requires { IsIndex (kinds_in types.now.slots) self.now.ids }
        ensures { result ≡ last_of (kinds_in types.now.slots) (target_kind target.entry) own self.now.ids }
    {
        self.latest_hashed(types, target, target_hash(target), own)
    }

    /// The same, where the hash of what is looked for is known.
    pub fn latest_hashed(
        &self,
        types: &TombstoneArena<Type, TypeSpace>,
        target: Target<'_>,
        hash: u128,
        own: bool,
    ) -> Option<TypeId>
        requires index { IsIndex (kinds_in types.now.slots) self.now.ids }
        requires hash { hash ≡ hash_of (target_kind target) }
        ensures { result ≡ last_of (kinds_in types.now.slots) (target_kind target.entry) own self.now.ids }
    {
        let place = place_of(hash, self.shift);
        self.forest.latest(place, types, hash, target, own)
    }
}
