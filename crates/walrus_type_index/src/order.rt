//! How the types of a table are ordered.
ghost use Rattle.std.specs.Prelude.{◌≡◌, ℕ, Some, None, true};
ghost use Rattle.std.specs.Ordering.{ordering_then, bool_cmp, is_lt, nat_cmp};
ghost use Rattle.std.specs.Option.{option_cmp, option_map};
ghost use Rattle.walrus_items.specs.walrus_arena.Arena.{item_at};
ghost use Rattle.walrus_items.specs.walrus_forms.Forms.{FunctionForm};
ghost use Rattle.walrus_items.specs.walrus_forms.Order.{kind_cmp};
ghost use Rattle.walrus_items.specs.Items.{kind_of};
ghost use Rattle.walrus_type_index.specs.Places.{kinds_in, id_cmp, key_cmp, place_cmp, hashed_cmp, wanted_cmp, place_of, names_itself};
ghost use Rattle.walrus_type_index.specs.Targets.{target_kind};

use crate::node::Hashed;
use std::cmp::Ordering;
use walrus_items::Type;
use walrus_items::arena::{TombstoneArena, TypeId, TypeSpace};
use walrus_items::forms::{CompositeType, ValType};

/// What a search looks for: the kind of a type, that of a final function type without supertype, or that of a body's own block.
#[derive(Clone, Copy)]
pub enum Target<'a> {
    Like(&'a Type),
    Function(&'a [ValType], &'a [ValType]),
    Entry(&'a [ValType]),
}

// How the one stands to the other: by hash, and only then by the types.
pub(crate) fn compare_hashed(
    types: &TombstoneArena<Type, TypeSpace>,
    a: Hashed,
    b: Hashed,
) -> Ordering
    ensures { result ≡ hashed_cmp (kinds_in types.now.slots) a b }
{
    match a.hash.cmp(&b.hash) {
        Ordering::Equal => compare(types, a.id, b.id),
        apart => apart,
    }
}

// How the types of two ids stand to one another.
fn compare(types: &TombstoneArena<Type, TypeSpace>, a: TypeId, b: TypeId) -> Ordering
    ensures { result ≡ id_cmp (kinds_in types.now.slots) a b }
{
    let first = types.get(a);
    let second = types.get(b);
    compare_live(first, a, second, b).then(compare_numbers(a, b))
}

fn compare_numbers(a: TypeId, b: TypeId) -> Ordering
    ensures { result ≡ nat_cmp a b }
{
    a.index().cmp(&b.index())
}

// How what one id has stands to what the other has.
fn compare_live(first: Option<&Type>, a: TypeId, second: Option<&Type>, b: TypeId) -> Ordering
    ensures { result ≡ place_cmp (place_of a (option_map (λ t. kind_of t.now) first.entry)) (place_of b (option_map (λ t. kind_of t.now) second.entry)) }
{
    match (first, second) {
        (Some(x), Some(y)) => compare_types(x, a, y, b),
        (Some(_), None) => Ordering::Greater,
        (None, Some(_)) => Ordering::Less,
        (None, None) => Ordering::Equal,
    }
}

// How the type of one id stands to that of another.
fn compare_types(x: &Type, a: TypeId, y: &Type, b: TypeId) -> Ordering
    ensures { result ≡ place_cmp (place_of a (Some (kind_of x.now))) (place_of b (Some (kind_of y.now))) }
{
    match compare_kinds(x, y) {
        Ordering::Equal => {
            let own = x.names(a);
            let other = y.names(b);
            own.cmp(&other)
        }
        found => found,
    }
}

fn compare_kinds(x: &Type, y: &Type) -> Ordering
    ensures { result ≡ kind_cmp (kind_of x.now) (kind_of y.now) }
{
    x.cmp(y)
}

// How a type stands to the final function type without supertype of these lists, that of a body's own block or not.
fn compare_function(ty: &Type, params: &[ValType], results: &[ValType], entry: bool) -> Ordering
    ensures { result ≡ kind_cmp (kind_of ty.now) (record { form = FunctionForm params.now results.now; final = true; supertype = None; entry = entry }) }
{
    match ty.kind() {
        CompositeType::Function(own) => own
            .params()
            .cmp(params)
            .then(own.results().cmp(results))
            .then(ty.is_final.cmp(&true))
            .then(ty.supertype.is_some().cmp(&false))
            .then(ty.is_entry().cmp(&entry)),
        _ => Ordering::Greater,
    }
}

fn compare_target(ty: &Type, target: Target<'_>) -> Ordering
    ensures { result ≡ kind_cmp (kind_of ty.now) (target_kind target.entry) }
{
    match target {
        Target::Like(other) => compare_kinds(ty, other),
        Target::Function(params, results) => compare_function(ty, params, results, false),
        Target::Entry(results) => compare_function(ty, &[], results, true),
    }
}

// How an id stands to the types that are looked for, which have this hash: by it, and only then by the type.
pub(crate) fn compare_wanted(
    types: &TombstoneArena<Type, TypeSpace>,
    hashed: Hashed,
    hash: u128,
    target: Target<'_>,
    own: bool,
) -> Ordering
    ensures { result ≡ wanted_cmp (kinds_in types.now.slots) hash (target_kind target.entry) own hashed }
{
    match hashed.hash.cmp(&hash) {
        Ordering::Equal => compare_key(types, hashed.id, target, own),
        apart => apart,
    }
}

// How an id stands to the types that are looked for, those that name themselves or those that don't.
pub(crate) fn compare_key(
    types: &TombstoneArena<Type, TypeSpace>,
    id: TypeId,
    target: Target<'_>,
    own: bool,
) -> Ordering
    ensures { result ≡ key_cmp (kinds_in types.now.slots) (target_kind target.entry) own id }
{
    let found = types.get(id);
    compare_found(found, id, target, own)
}

fn compare_found(found: Option<&Type>, id: TypeId, target: Target<'_>, own: bool) -> Ordering
    ensures { result ≡ place_cmp (place_of id (option_map (λ t. kind_of t.now) found.entry)) (Some (target_kind target.entry), own) }
{
    match found {
        Some(ty) => match compare_target(ty, target) {
            Ordering::Equal => ty.names(id).cmp(&own),
            found => found,
        },
        None => Ordering::Less,
    }
}
