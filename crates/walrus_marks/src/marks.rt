//! The items that were met.
ghost use Rattle.std.specs.Prelude.{◌≡◌, ◌+◌, ◌<◌, ◌≤◌, ◌++◌, ◌∷◌, [], true, false, not, None, IfOk, length, map, MatchOption, replicate, slice_index_or, vec_capacity, vec_len};
ghost use Rattle.walrus_roots.specs.Items.{item};
ghost use Rattle.walrus_marks.specs.Marks.{flags_of, kept_missing, is_marked, left_out, meet, met_none, misses_claimed};

use crate::claims::Claims;
use std::alloc::{AllocError, Global};
use std::marker::Model;
use walrus_roots::Item;
use wasm_formats::Space;

/// Marks of the items that were met, and those of them that are still to be looked at.
///
/// Meeting an item takes no memory.
#[derive(Drop)]
pub struct Marks {
    // By space and id, whether the item was met.
    flags: Vec<Vec<bool>>,
    // Those to be looked at. There is room for all that were not met.
    work: Vec<Item>,
    // An item for which there was no flag, a claimed one if there was such a one.
    missing: Option<Item>,
    claims: Claims,
}

impl Model for Marks {
    ghost use Rattle.std.specs.Prelude.{◌≡◌, ◌+◌, ◌≤◌, length, vec_capacity};
    ghost use Rattle.walrus_marks.specs.Marks.{State, lists_of, left_out};

    ghost Value = { State };

    ghost view = { λ s. record { met = record { marks = lists_of s.flags.items; work = s.work.items }; missing = record { item = s.missing; claimed = s.claims } } };

    ghost invariant = { λ s. record {
      spaces : length s.flags.items ≡ 10;
      room : left_out (lists_of s.flags.items) + length s.work.items ≤ vec_capacity s.work;
    } };
}

// Whether there is a flag that isn't set.
fn is_new(flags: &[bool], id: usize) -> bool
    ensures { result ≡ not (slice_index_or flags.now id true) }
{
    match flags.get(id) {
        Some(flag) => !*flag,
        None => false,
    }
}

// Whether there is a flag that is set.
fn is_set(flags: &[bool], id: usize) -> bool
    ensures { result ≡ slice_index_or flags.now id false }
{
    match flags.get(id) {
        Some(flag) => *flag,
        None => false,
    }
}

// Keeps an item that has no flag, but where a claimed one is kept.
fn miss(missing: &mut Option<Item>, claims: &Claims, item: Item)
    ensures { missing.new ≡ kept_missing claims.now missing.old «item» }
{
    if let Some(known) = *missing {
        if claims.contains(known) {
            return;
        }
    }
    *missing = Some(item);
}

impl Marks {
    /// No item is met, each space has as many flags as the counts say, and these items are claimed.
    ///
    /// # Errors
    ///
    /// Want of memory.
    pub fn new(alloc: Global, counts: &[usize], claims: Claims) -> Result<Self, AllocError>
        requires { length counts.now ≡ 10 }
        ensures { IfOk result (λ s. s ≡ met_none counts.now claims) }
    {
        let mut flags: Vec<Vec<bool>> = Vec::new(alloc);
        let mut all: usize = 0;
        for count in counts {
            let unset = vec![in alloc; false; *count]?;
            flags.push(unset)?;
            all = all.checked_add(*count).ok_or(AllocError)?;
        }
        let mut work = Vec::new(alloc);
        work.reserve(all)?;
        Ok(Marks {
            flags,
            work,
            missing: None,
            claims,
        })
    }

    /// Meets an item. One that wasn't met is marked, and is to be looked at.
    pub fn meet(&mut self, item: Item)
        ensures { self.new ≡ meet self.old item }
    {
        let space = item.space_number();
        let id = item.id as usize;
        if id >= self.flags[space].len() {
            miss(&mut self.missing, &self.claims, item);
        } else if is_new(&self.flags[space], id) {
            self.flags[space][id] = true;
            self.work.push_reserved(item);
        }
    }

    /// Takes one of those that are to be looked at.
    pub fn take(&mut self) -> Option<Item>
        ensures marks { self.new.met.marks ≡ self.old.met.marks }
        ensures missing { self.new.missing ≡ self.old.missing }
        ensures work { MatchOption result ((self.old.met.work ≡ []) × (self.new.met.work ≡ [])) (λ item. self.old.met.work ≡ self.new.met.work ++ item ∷ []) }
    {
        self.work.pop()
    }

    /// Whether the item was met and has a flag.
    pub fn contains(&self, item: Item) -> bool
        ensures { result ≡ is_marked self.now.met.marks item }
    {
        is_set(&self.flags[item.space_number()], item.id as usize)
    }

    /// Whether the item of this number in the space was met and has a flag.
    pub fn has(&self, space: Space, index: usize) -> bool
        ensures { result ≡ is_marked self.now.met.marks (item space index) }
    {
        let first = Item { space, id: 0 };
        is_set(&self.flags[first.space_number()], index)
    }

    /// An item that was met and has no flag: a claimed one, if such a one was met.
    pub fn missing(&self) -> Option<Item>
        ensures { result ≡ self.now.missing.item }
    {
        self.missing
    }

    /// Whether a claimed item was met that has no flag.
    pub fn misses_claimed(&self) -> bool
        ensures { result ≡ misses_claimed self.now.missing }
    {
        match self.missing {
            Some(item) => self.claims.contains(item),
            None => false,
        }
    }
}
