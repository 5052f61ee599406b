//! Trees whose nodes stand in one list: one for each of the first places of a directory, and one for all further ones.
ghost use Rattle.std.specs.Prelude.{◌≡◌, ◌≤◌, ◌<◌, ◌+◌, ◌*◌, ℕ, List, [], not, filter, find, length, slice_set, vec_capacity, OnOk, OnErr};
ghost use Rattle.std.specs.List.Sorted.{IsStrictlySortedBy};
ghost use Rattle.std.specs.Option.{is_some};
ghost use Rattle.walrus_type_index.specs.Places.{Hashed as HashedId, kinds_in, hashed_cmp, is_before, is_tied, last_of, put_in};
ghost use Rattle.walrus_type_index.specs.Hashes.{hash_of};
ghost use Rattle.walrus_type_index.specs.Targets.{target_kind};
ghost use Rattle.walrus_type_index.specs.Ordered.{IsIndex, is_marked};
ghost use Rattle.walrus_type_index.specs.Directory.{joined, tree_at, last_set, halves, last_half, changed_to};
ghost use Rattle.walrus_type_index.specs.Flat.{slots, count};
ghost use Rattle.walrus_type_index.specs.Forest.{AreTrees};

use crate::flat::{NONE, latest, put, split, take, unmarked};
use crate::index::{AHEAD, place_of};
use crate::node::Hashed;
use crate::node_list::FlatNode;
use crate::order::Target;
use std::alloc::{AllocError, Global};
use std::marker::Model;
use std::mem;
use walrus_items::Type;
use walrus_items::arena::{TombstoneArena, TypeId, TypeSpace};

/// Trees of ids. Those of one tree lie all over the list.
#[derive(Drop)]
pub(crate) struct Forest {
    // A node for each id, in a tree or not.
    nodes: Vec<FlatNode>,
    // The top nodes of the trees of the first places, and of that of all further ones.
    tops: Vec<u32>,
    last: u32,
}

impl Model for Forest {
    ghost use Rattle.std.specs.Prelude.{length};
    ghost use Rattle.walrus_type_index.specs.Flat.{slots};
    ghost use Rattle.walrus_type_index.specs.Forest.{Forest as Trees, AreTrees, ids_in, all_ids_in};

    ghost Value = { Trees };

    ghost view = { λ f. record { trees = all_ids_in f.nodes.items f.tops.items; last = ids_in f.nodes.items f.last; room = length f.nodes.items } };

    ghost invariant = { λ f. AreTrees (slots f.nodes.items) f.tops.items f.last (all_ids_in f.nodes.items f.tops.items) (ids_in f.nodes.items f.last) };
}

// The top node of the tree of that place.
fn top_of(tops: &[u32], last: u32, place: usize) -> u32
    ensures { result ≡ tree_at tops.now place last }
{
    if place < tops.len() {
        return tops[place];
    }
    last
}

// Puts a tree with this top node at that place.
fn set_top(tops: &mut Vec<u32>, last: &mut u32, place: usize, top: u32)
    ensures tops { tops.new.items ≡ slice_set tops.old.items place top }
    ensures last { last.new ≡ last_set tops.old.items place last.old top }
{
    if place < tops.len() {
        tops[place] = top;
        return;
    }
    *last = top;
}

// Takes the marked ids out of all these trees.
fn sweep_all(nodes: &mut [FlatNode], tops: &mut [u32], marks: &[bool])
    ensures { (top : ℕ) (trees : List (List HashedId)) (last : List HashedId) → AreTrees (slots nodes.old) tops.old top trees last
        → AreTrees (slots nodes.new) tops.new top (changed_to (filter (λ x. not (is_marked marks.now x.id))) (length tops.old) trees) last }
{
    let fuel = nodes.len();
    let count = tops.len();
    for place in 0..count {
        tops[place] = unmarked(nodes, tops[place], marks, fuel);
    }
}

// Each of these trees in two, in a list that has room for them, and what is then last.
fn halved(
    nodes: &mut [FlatNode],
    tops: Vec<u32>,
    last: u32,
    mut wide: Vec<u32>,
    shift: u32,
) -> (Vec<u32>, u32)
    requires shift { shift ≤ 63 }
    requires empty { wide.items ≡ [] }
    requires room { length tops.items * 2 + 1 ≤ vec_capacity wide }
    ensures { (trees : List (List HashedId)) (rest : List HashedId) → AreTrees (slots nodes.old) tops.items last trees rest
        → AreTrees (slots nodes.new) result.0.items result.1 (halves shift trees 0 rest) (last_half shift trees 0 rest) }
{
    let fuel = nodes.len();
    for top in tops {
        let (before, behind) = split(nodes, top, shift, wide.len(), fuel);
        wide.push_reserved(before);
        wide.push_reserved(behind);
    }
    let (before, behind) = split(nodes, last, shift, wide.len(), fuel);
    wide.push_reserved(before);
    (wide, behind)
}

impl Forest {
    // No ids. Takes no memory.
    pub(crate) fn new(alloc: Global) -> Forest
        ensures { result ≡ record { trees = []; last = []; room = 0 } }
    {
        Forest {
            nodes: Vec::new(alloc),
            tops: Vec::new(alloc),
            last: NONE,
        }
    }

    // How many trees of first places there are.
    pub(crate) fn count(&self) -> usize
        ensures { result ≡ length self.now.trees }
    {
        self.tops.len()
    }

    // The node of this number, or another one where there is none. It is no jump, so that no look waits for the one before it.
    #[inline(always)]
    fn near(&self, number: u32) -> FlatNode {
        let last = self.nodes.len().saturating_sub(1);
        match self.nodes.get(last.min(number as usize)) {
            Some(node) => *node,
            None => FlatNode::apart(),
        }
    }

    // Looks at the top nodes of the trees of these hashes, and at the nodes below on the way to them. The looks of one kind, which wait for
    // memory, wait at once. No answer rests on what is met.
    pub(crate) fn met(&self, hashes: &[u128; AHEAD], shift: u32) -> u64
        requires { shift ≤ 63 }
    {
        let mut places = [0; AHEAD];
        for at in 0..AHEAD {
            places[at] = top_of(self.tops.as_slice(), self.last, place_of(hashes[at], shift));
        }
        for at in 0..AHEAD {
            let top = self.near(places[at]);
            places[at] = if hashes[at] < top.hash {
                top.left
            } else {
                top.right
            };
        }
        let mut met: u64 = 0;
        for at in 0..AHEAD {
            met = met.wrapping_add(self.near(places[at]).height as u64);
        }
        met
    }

    // Has a node for each id below that number.
    pub(crate) fn reserve(&mut self, count: usize) -> Result<(), AllocError>
        ensures trees { self.new.trees ≡ self.old.trees }
        ensures last { self.new.last ≡ self.old.last }
        ensures kept { self.old.room ≤ self.new.room }
        ensures room { OnOk result (count ≤ self.new.room) }
        ensures few { OnOk result (count ≤ 4294967295) }
    {
        if count > NONE as usize {
            return Err(AllocError);
        }
        if self.nodes.len() < count {
            self.nodes.resize(count, FlatNode::apart())?;
        }
        Ok(())
    }

    // Puts the id into the tree of that place. Takes no memory.
    pub(crate) fn put(
        &mut self,
        place: usize,
        types: &TombstoneArena<Type, TypeSpace>,
        hashed: Hashed,
    )
        requires sorted { IsStrictlySortedBy (hashed_cmp (kinds_in types.now.slots)) (tree_at self.old.trees place self.old.last) }
        requires room { hashed.id < self.old.room }
        requires out { count hashed.id (joined self.old.trees self.old.last) ≡ 0 }
        ensures trees { self.new.trees ≡ slice_set self.old.trees place (put_in (is_before (kinds_in types.now.slots) hashed) hashed (tree_at self.old.trees place self.old.last)) }
        ensures last { self.new.last ≡ last_set self.old.trees place self.old.last (put_in (is_before (kinds_in types.now.slots) hashed) hashed (tree_at self.old.trees place self.old.last)) }
        ensures room { self.new.room ≡ self.old.room }
    {
        let top = top_of(self.tops.as_slice(), self.last, place);
        let fuel = self.nodes.len();
        let top = put(self.nodes.as_mut_slice(), top, types, &hashed, fuel);
        set_top(&mut self.tops, &mut self.last, place, top);
    }

    // Takes the id that ties out of the tree of that place, and says whether there was one.
    pub(crate) fn take(
        &mut self,
        place: usize,
        types: &TombstoneArena<Type, TypeSpace>,
        hashed: Hashed,
    ) -> bool
        requires { IsStrictlySortedBy (hashed_cmp (kinds_in types.now.slots)) (tree_at self.old.trees place self.old.last) }
        ensures trees { self.new.trees ≡ slice_set self.old.trees place (filter (λ y. not (is_tied (kinds_in types.now.slots) hashed y)) (tree_at self.old.trees place self.old.last)) }
        ensures last { self.new.last ≡ last_set self.old.trees place self.old.last (filter (λ y. not (is_tied (kinds_in types.now.slots) hashed y)) (tree_at self.old.trees place self.old.last)) }
        ensures room { self.new.room ≡ self.old.room }
        ensures met { result ≡ is_some (find (is_tied (kinds_in types.now.slots) hashed) (tree_at self.old.trees place self.old.last)) }
    {
        let top = top_of(self.tops.as_slice(), self.last, place);
        let fuel = self.nodes.len();
        let (rest, met) = take(self.nodes.as_mut_slice(), top, types, &hashed, fuel);
        set_top(&mut self.tops, &mut self.last, place, rest);
        met
    }

    // Takes out the marked ids, in one walk of all trees.
    pub(crate) fn sweep(&mut self, marks: &[bool])
        ensures trees { self.new.trees ≡ changed_to (filter (λ x. not (is_marked marks.now x.id))) (length self.old.trees) self.old.trees }
        ensures last { self.new.last ≡ filter (λ x. not (is_marked marks.now x.id)) self.old.last }
        ensures room { self.new.room ≡ self.old.room }
    {
        let fuel = self.nodes.len();
        sweep_all(self.nodes.as_mut_slice(), self.tops.as_mut_slice(), marks);
        self.last = unmarked(self.nodes.as_mut_slice(), self.last, marks, fuel);
    }

    // Each tree in two.
    pub(crate) fn halve(&mut self, alloc: Global, shift: u32) -> Result<(), AllocError>
        requires { shift ≤ 63 }
        ensures trees { OnOk result (self.new.trees ≡ halves shift self.old.trees 0 self.old.last) }
        ensures last { OnOk result (self.new.last ≡ last_half shift self.old.trees 0 self.old.last) }
        ensures room { self.new.room ≡ self.old.room }
        ensures refused { OnErr result (self.new ≡ self.old) }
    {
        let wide = Vec::with_capacity(alloc, self.tops.len() * 2 + 1)?;
        let tops = mem::replace(&mut self.tops, Vec::new(alloc));
        let (tops, last) = halved(self.nodes.as_mut_slice(), tops, self.last, wide, shift);
        self.tops = tops;
        self.last = last;
        Ok(())
    }

    // The last id of a type of the kind that is looked for in the tree of that place, of those that name themselves or of the others.
    pub(crate) fn latest(
        &self,
        place: usize,
        types: &TombstoneArena<Type, TypeSpace>,
        hash: u128,
        target: Target<'_>,
        own: bool,
    ) -> Option<TypeId>
        requires index { IsIndex (kinds_in types.now.slots) (tree_at self.now.trees place self.now.last) }
        requires hash { hash ≡ hash_of (target_kind target) }
        ensures { result ≡ last_of (kinds_in types.now.slots) (target_kind target.entry) own (tree_at self.now.trees place self.now.last) }
    {
        let top = top_of(self.tops.as_slice(), self.last, place);
        latest(self.nodes.as_slice(), top, types, hash, target, own)
    }
}
