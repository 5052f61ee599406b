//! Balanced trees of the ids of a table's types, in the order of their types. The nodes of all of them stand in one list, by id.
ghost use Rattle.std.specs.Prelude.{◌≡◌, ◌≤◌, None, length, not};
ghost use Rattle.std.specs.Option.{option_map};
ghost use Rattle.walrus_type_index.specs.Places.{kinds_in};
ghost use Rattle.walrus_type_index.specs.Flat.{link_of, slots, Wrote, Turns, Joins, Merges, Firsts, Begins, Puts, Takes, Meets, Filters, Splits, Finds, IsLatest};
ghost use Rattle.walrus_type_index.specs.Hashes.{hash_of};
ghost use Rattle.walrus_type_index.specs.Targets.{target_kind};
ghost use Rattle.walrus_type_index.specs.Ordered.{is_marked};
ghost use Rattle.walrus_type_index.specs.Directory.{is_later};

use crate::index::is_later;
use crate::marks::is_marked;
use crate::node::Hashed;
use crate::node_list::FlatNode;
use crate::order::{Target, compare_hashed, compare_key, compare_wanted};
use std::cmp::Ordering;
use walrus_items::Type;
use walrus_items::arena::{TombstoneArena, TypeId, TypeSpace};

// No node stands there.
pub(crate) const NONE: u32 = u32::MAX;

// What stands there.
#[inline(always)]
fn node_at(nodes: &[FlatNode], top: u32) -> Option<FlatNode>
    ensures { option_map link_of result ≡ slots nodes.now top }
{
    nodes.get(top as usize).copied()
}

// How high the tree is.
#[inline(always)]
fn height(nodes: &[FlatNode], top: u32) -> u32 {
    match nodes.get(top as usize) {
        Some(node) => node.height,
        None => 0,
    }
}

// Writes the sides of a node, and how high it is.
#[inline(always)]
fn set(nodes: &mut [FlatNode], left: u32, top: u32, right: u32, height: u32)
    ensures { Wrote (slots nodes.old) (slots nodes.new) top left right }
{
    let place = top as usize;
    if place < nodes.len() {
        let hash = nodes[place].hash;
        nodes[place] = FlatNode {
            hash,
            left,
            right,
            height,
        };
    }
}

// The node over these sides.
fn link(nodes: &mut [FlatNode], left: u32, top: u32, right: u32)
    ensures { Joins (slots nodes.old) (slots nodes.new) left top right top }
{
    let high = height(nodes, left).max(height(nodes, right));
    set(nodes, left, top, right, high.saturating_add(1));
}

// The node over these sides, turned so that the left one comes to the top.
fn turn_right(nodes: &mut [FlatNode], left: u32, top: u32, right: u32) -> u32
    ensures { Joins (slots nodes.old) (slots nodes.new) left top right result }
{
    match node_at(nodes, left) {
        None => {
            link(nodes, left, top, right);
            top
        }
        Some(side) => {
            link(nodes, side.right, top, right);
            link(nodes, side.left, left, top);
            left
        }
    }
}

// The node over these sides, turned so that the right one comes to the top.
fn turn_left(nodes: &mut [FlatNode], left: u32, top: u32, right: u32) -> u32
    ensures { Joins (slots nodes.old) (slots nodes.new) left top right result }
{
    match node_at(nodes, right) {
        None => {
            link(nodes, left, top, right);
            top
        }
        Some(side) => {
            link(nodes, left, top, side.left);
            link(nodes, top, right, side.right);
            right
        }
    }
}

// The tree, no higher on the right than on the left.
fn lean_left(nodes: &mut [FlatNode], top: u32) -> u32
    ensures { Turns (slots nodes.old) (slots nodes.new) top result }
{
    match node_at(nodes, top) {
        None => top,
        Some(node) => {
            if height(nodes, node.right) > height(nodes, node.left) {
                return turn_left(nodes, node.left, top, node.right);
            }
            top
        }
    }
}

// The tree, no higher on the left than on the right.
fn lean_right(nodes: &mut [FlatNode], top: u32) -> u32
    ensures { Turns (slots nodes.old) (slots nodes.new) top result }
{
    match node_at(nodes, top) {
        None => top,
        Some(node) => {
            if height(nodes, node.left) > height(nodes, node.right) {
                return turn_right(nodes, node.left, top, node.right);
            }
            top
        }
    }
}

// The node over these sides, brought near each other in height: they differ by two at most.
fn over(nodes: &mut [FlatNode], left: u32, top: u32, right: u32) -> u32
    ensures { Joins (slots nodes.old) (slots nodes.new) left top right result }
{
    let first = height(nodes, left);
    let second = height(nodes, right);
    if first > second.saturating_add(1) {
        let side = lean_left(nodes, left);
        return turn_right(nodes, side, top, right);
    }
    if second > first.saturating_add(1) {
        let side = lean_right(nodes, right);
        return turn_left(nodes, left, top, side);
    }
    set(nodes, left, top, right, first.max(second).saturating_add(1));
    top
}

// The node between these sides, the left one of which may be higher by more than one: it comes under that one's right edge.
fn hang_right(nodes: &mut [FlatNode], left: u32, top: u32, right: u32, fuel: usize) -> u32
    ensures { Joins (slots nodes.old) (slots nodes.new) left top right result }
{
    if fuel == 0 || height(nodes, left) <= height(nodes, right).saturating_add(1) {
        return over(nodes, left, top, right);
    }
    match node_at(nodes, left) {
        None => over(nodes, left, top, right),
        Some(node) => {
            let side = hang_right(nodes, node.right, top, right, fuel - 1);
            over(nodes, node.left, left, side)
        }
    }
}

// The node between these sides, the right one of which may be higher by more than one: it comes under that one's left edge.
fn hang_left(nodes: &mut [FlatNode], left: u32, top: u32, right: u32, fuel: usize) -> u32
    ensures { Joins (slots nodes.old) (slots nodes.new) left top right result }
{
    if fuel == 0 || height(nodes, right) <= height(nodes, left).saturating_add(1) {
        return over(nodes, left, top, right);
    }
    match node_at(nodes, right) {
        None => over(nodes, left, top, right),
        Some(node) => {
            let side = hang_left(nodes, left, top, node.left, fuel - 1);
            over(nodes, side, right, node.right)
        }
    }
}

// The node between sides of any height.
fn between(nodes: &mut [FlatNode], left: u32, top: u32, right: u32, fuel: usize) -> u32
    ensures { Joins (slots nodes.old) (slots nodes.new) left top right result }
{
    if height(nodes, left) > height(nodes, right) {
        return hang_right(nodes, left, top, right, fuel);
    }
    hang_left(nodes, left, top, right, fuel)
}

// The first node, and the others. It takes no more steps than there is fuel.
fn split_first(nodes: &mut [FlatNode], top: u32, fuel: usize) -> (u32, u32)
    ensures { Firsts (slots nodes.old) (slots nodes.new) top fuel result.0 result.1 }
{
    let Some(node) = node_at(nodes, top) else {
        return (top, top);
    };
    if fuel == 0 {
        return (top, node.right);
    }
    match node_at(nodes, node.left) {
        None => (top, node.right),
        Some(_) => {
            let (first, rest) = split_first(nodes, node.left, fuel - 1);
            (first, over(nodes, rest, top, node.right))
        }
    }
}

// The ids of both.
fn join(nodes: &mut [FlatNode], left: u32, right: u32, fuel: usize) -> u32
    ensures { Merges (slots nodes.old) (slots nodes.new) left right fuel result }
{
    match node_at(nodes, right) {
        None => left,
        Some(_) => {
            let (first, rest) = split_first(nodes, right, fuel);
            between(nodes, left, first, rest, fuel)
        }
    }
}

// The node over these sides, of which one is as high as it was, or not. If it is, all above it is left alone: the other sides, which are
// met nowhere else, aren't looked at.
#[inline(always)]
fn settle(
    nodes: &mut [FlatNode],
    left: u32,
    top: u32,
    right: u32,
    is_as_high: bool,
    height: u32,
) -> u32
    ensures { Joins (slots nodes.old) (slots nodes.new) left top right result }
{
    if is_as_high {
        set(nodes, left, top, right, height);
        return top;
    }
    over(nodes, left, top, right)
}

// The node of this id, with no sides.
fn begin(nodes: &mut [FlatNode], hashed: Hashed) -> u32
    ensures id { result ≡ hashed.id }
    ensures begins { Begins (slots nodes.old) (slots nodes.new) hashed }
{
    let place = hashed.id.index();
    if place < nodes.len() {
        nodes[place] = FlatNode {
            hash: hashed.hash,
            left: NONE,
            right: NONE,
            height: 1,
        };
    }
    hashed.id.number()
}

// The id of a node, and its hash.
#[inline(always)]
fn hashed(hash: u128, top: u32) -> Hashed
    ensures hash { result.hash ≡ hash }
    ensures id { result.id ≡ top }
{
    Hashed {
        hash,
        id: TypeId::from_index(top as usize),
    }
}

// The tree with one more id, whose node is there.
pub(crate) fn put(
    nodes: &mut [FlatNode],
    top: u32,
    types: &TombstoneArena<Type, TypeSpace>,
    new: &Hashed,
    fuel: usize,
) -> u32
    ensures { Puts (kinds_in types.now.slots) (slots nodes.old) (slots nodes.new) top new.now fuel result }
{
    let Some(node) = node_at(nodes, top) else {
        return begin(nodes, *new);
    };
    if fuel == 0 {
        return top;
    }
    if compare_hashed(types, *new, hashed(node.hash, top)).is_lt() {
        let before = height(nodes, node.left);
        let side = put(nodes, node.left, types, new, fuel - 1);
        let is_as_high = height(nodes, side) == before;
        return settle(nodes, side, top, node.right, is_as_high, node.height);
    }
    let before = height(nodes, node.right);
    let side = put(nodes, node.right, types, new, fuel - 1);
    let is_as_high = height(nodes, side) == before;
    settle(nodes, node.left, top, side, is_as_high, node.height)
}

// The tree without the id, and whether it was in.
pub(crate) fn take(
    nodes: &mut [FlatNode],
    top: u32,
    types: &TombstoneArena<Type, TypeSpace>,
    wanted: &Hashed,
    fuel: usize,
) -> (u32, bool)
    ensures rest { Takes (kinds_in types.now.slots) (slots nodes.old) (slots nodes.new) top wanted.now fuel result.0 }
    ensures met { Meets (kinds_in types.now.slots) (slots nodes.old) top wanted.now fuel result.1 }
{
    let Some(node) = node_at(nodes, top) else {
        return (top, false);
    };
    if fuel == 0 {
        return (top, false);
    }
    match compare_hashed(types, *wanted, hashed(node.hash, top)) {
        Ordering::Less => {
            let (rest, met) = take(nodes, node.left, types, wanted, fuel - 1);
            (over(nodes, rest, top, node.right), met)
        }
        Ordering::Greater => {
            let (rest, met) = take(nodes, node.right, types, wanted, fuel - 1);
            (over(nodes, node.left, top, rest), met)
        }
        Ordering::Equal => (join(nodes, node.left, node.right, fuel), true),
    }
}

// The ids that aren't marked.
pub(crate) fn unmarked(nodes: &mut [FlatNode], top: u32, marks: &[bool], fuel: usize) -> u32
    ensures { Filters (λ x. not (is_marked marks.now x.id)) (slots nodes.old) (slots nodes.new) top fuel result }
{
    let Some(node) = node_at(nodes, top) else {
        return top;
    };
    if fuel == 0 {
        return top;
    }
    let before = unmarked(nodes, node.left, marks, fuel - 1);
    let behind = unmarked(nodes, node.right, marks, fuel - 1);
    if is_marked(marks, TypeId::from_index(top as usize)) {
        return join(nodes, before, behind, fuel);
    }
    between(nodes, before, top, behind, fuel)
}

// The ids whose places, of hashes with so many bits left out, are no later than this one, and the others.
pub(crate) fn split(
    nodes: &mut [FlatNode],
    top: u32,
    shift: u32,
    place: usize,
    fuel: usize,
) -> (u32, u32)
    requires { shift ≤ 63 }
    ensures { Splits (is_later shift place) (slots nodes.old) (slots nodes.new) top fuel result.0 result.1 }
{
    let Some(node) = node_at(nodes, top) else {
        return (top, top);
    };
    if fuel == 0 {
        return (top, top);
    }
    let (first, second) = split(nodes, node.left, shift, place, fuel - 1);
    let (third, fourth) = split(nodes, node.right, shift, place, fuel - 1);
    if is_later(hashed(node.hash, top), shift, place) {
        let early = join(nodes, first, third, fuel);
        let late = between(nodes, second, top, fourth, fuel);
        return (early, late);
    }
    let early = between(nodes, first, top, third, fuel);
    let late = join(nodes, second, fourth, fuel);
    (early, late)
}

// The last that is no later than what is looked for, which has this hash. It takes no more steps than there are nodes.
fn last(
    nodes: &[FlatNode],
    top: u32,
    types: &TombstoneArena<Type, TypeSpace>,
    hash: u128,
    target: Target<'_>,
    own: bool,
) -> Option<Hashed>
    ensures { Finds (kinds_in types.now.slots) (slots nodes.now) top hash (target_kind target.entry) own None (length nodes.now) result }
{
    let mut top = top;
    let mut found = None;
    for step in 0..nodes.len() {
        let Some(node) = node_at(nodes, top) else {
            return found;
        };
        if compare_wanted(types, hashed(node.hash, top), hash, target, own).is_gt() {
            top = node.left;
            continue;
        }
        found = Some(hashed(node.hash, top));
        top = node.right;
    }
    found
}

// The last id of a type of the kind that is looked for, which has this hash, of those that name themselves or of the others.
pub(crate) fn latest(
    nodes: &[FlatNode],
    top: u32,
    types: &TombstoneArena<Type, TypeSpace>,
    hash: u128,
    target: Target<'_>,
    own: bool,
) -> Option<TypeId>
    requires { hash ≡ hash_of (target_kind target) }
    ensures { IsLatest (kinds_in types.now.slots) (slots nodes.now) top (target_kind target.entry) own (length nodes.now) result }
{
    match last(nodes, top, types, hash, target, own) {
        Some(found) => {
            if found.hash == hash && compare_key(types, found.id, target, own).is_eq() {
                Some(found.id)
            } else {
                None
            }
        }
        None => None,
    }
}
