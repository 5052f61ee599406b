//! The iterators of a type table. Each goes by rising id.
ghost use Rattle.std.specs.Prelude.{◌≡◌, map};
ghost use Rattle.std.specs.Iterator.{YieldsFirstBy, item_count};
ghost use Rattle.walrus_type_arenas.specs.walrus_type_index.walrus_items.Items.{item_of, group_of};

use std::marker::Model;
use walrus_type_arenas::type_index::arena::{Iter, RecGroupSpace, TypeSpace};
use walrus_type_arenas::type_index::items::{RecGroup, Type};

/// The live types of a table, seen as the list of those that are left.
#[derive(Drop)]
pub struct Types<'a> {
    types: Iter<'a, Type, TypeSpace>,
}

impl<'a> Model for Types<'a> {
    ghost use Rattle.std.specs.Prelude.{List, map};
    ghost use Rattle.walrus_type_arenas.specs.walrus_type_index.walrus_items.Items.{Item, item_of};

    ghost Value = { List Item };

    ghost view = { λ it. map (λ e. item_of e.1) it.types };
}

impl<'a> Types<'a> {
    pub(crate) fn new(types: Iter<'a, Type, TypeSpace>) -> Self
        ensures { result ≡ map (λ e. item_of e.1) types.entry }
    {
        Types { types }
    }
}

impl<'a> Iterator for Types<'a> {
    type Item = &'a Type;

    ghost next_gives = { YieldsFirstBy (λ ty. item_of ty.now) (λ rest. rest) };

    ghost remaining = { item_count (λ rest. rest) };

    fn next(&mut self) -> Option<&'a Type> {
        match self.types.next() {
            Some((_, ty)) => Some(ty),
            None => None,
        }
    }
}

/// The live groups of a table, seen as the list of those that are left.
#[derive(Drop)]
pub struct RecGroups<'a> {
    groups: Iter<'a, RecGroup, RecGroupSpace>,
}

impl<'a> Model for RecGroups<'a> {
    ghost use Rattle.std.specs.Prelude.{List, map};
    ghost use Rattle.walrus_type_arenas.specs.walrus_type_index.walrus_items.Items.{Group, group_of};

    ghost Value = { List Group };

    ghost view = { λ it. map (λ e. group_of e.1) it.groups };
}

impl<'a> RecGroups<'a> {
    pub(crate) fn new(groups: Iter<'a, RecGroup, RecGroupSpace>) -> Self
        ensures { result ≡ map (λ e. group_of e.1) groups.entry }
    {
        RecGroups { groups }
    }
}

impl<'a> Iterator for RecGroups<'a> {
    type Item = &'a RecGroup;

    ghost next_gives = { YieldsFirstBy (λ group. group_of group.now) (λ rest. rest) };

    ghost remaining = { item_count (λ rest. rest) };

    fn next(&mut self) -> Option<&'a RecGroup> {
        match self.groups.next() {
            Some((_, group)) => Some(group),
            None => None,
        }
    }
}
