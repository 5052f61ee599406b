//! What is asked of the index of a table.
ghost use Rattle.std.specs.Prelude.{◌≡◌, ◌==◌, [], length, None};
ghost use Rattle.std.specs.List.{filter_map, list_any};
ghost use Rattle.walrus_type_index.specs.walrus_items.walrus_forms.Values.{value_name};
ghost use Rattle.walrus_type_index.specs.walrus_items.walrus_forms.Kinds.{entry_kind, function_kind};
ghost use Rattle.walrus_type_index.specs.walrus_items.Items.{kind_of};
ghost use Rattle.walrus_type_index.specs.Hashes.{hash_of};
ghost use Rattle.walrus_type_index.specs.Places.{kinds_in, names_itself};
ghost use Rattle.walrus_type_index.specs.Ordered.{IsHeld};
ghost use Rattle.walrus_type_arenas.specs.Table.{table_of, equal_type, found_type};
ghost use Rattle.walrus_type_arenas.specs.Highest.{later_of, if_of_kind};

use walrus_type_index::arena::{TombstoneArena, TypeId, TypeSpace};
use walrus_type_index::forms::ValType;
use walrus_type_index::items::Type;
use walrus_type_index::{Index, Target, type_hash};

/// The type that stands for this one, which is to have the id `next`. No type is lent.
pub fn look_up(
    index: &Index,
    types: &TombstoneArena<Type, TypeSpace>,
    ty: &Type,
    next: TypeId,
) -> Option<TypeId>
    requires held { IsHeld None index.now (kinds_in types.now.slots) }
    requires next { next ≡ length types.now.slots }
    ensures { result ≡ equal_type (kind_of ty.now) (table_of types.now.slots []) }
{
    look_up_hashed(index, types, ty, type_hash(ty), next)
}

/// The same, where the hash of the type is known.
pub fn look_up_hashed(
    index: &Index,
    types: &TombstoneArena<Type, TypeSpace>,
    ty: &Type,
    hash: u128,
    next: TypeId,
) -> Option<TypeId>
    requires held { IsHeld None index.now (kinds_in types.now.slots) }
    requires hash { hash ≡ hash_of (kind_of ty.now) }
    requires next { next ≡ length types.now.slots }
    ensures { result ≡ equal_type (kind_of ty.now) (table_of types.now.slots []) }
{
    if ty.names(next) {
        return None;
    }
    index.latest_hashed(types, Target::Like(ty), hash, false)
}

// Whether one of these names the type.
fn values_name(values: &[ValType], id: TypeId) -> bool
    ensures { result ≡ list_any (λ name. name == id) (filter_map value_name values.now) }
{
    values
        .iter()
        .filter_map(|value| value.type_id())
        .any(|name| name.index() == id.index())
}

// Whether the type of the own block of a body with these results would name itself under this id.
fn entry_names(results: &[ValType], id: TypeId) -> bool
    ensures { result ≡ names_itself id (entry_kind results.now) }
{
    values_name(results, id)
}

/// The type that stands for that of the own block of a body with these results, if there is one, where the next type is to have the id
/// `next`. No type is lent.
pub fn look_up_entry(
    index: &Index,
    types: &TombstoneArena<Type, TypeSpace>,
    results: &[ValType],
    next: TypeId,
) -> Option<TypeId>
    requires held { IsHeld None index.now (kinds_in types.now.slots) }
    requires next { next ≡ length types.now.slots }
    ensures { result ≡ equal_type (entry_kind results.now) (table_of types.now.slots []) }
{
    if entry_names(results, next) {
        return None;
    }
    index.latest(types, Target::Entry(results), false)
}

// The higher of both.
fn later(a: Option<TypeId>, b: Option<TypeId>) -> Option<TypeId>
    ensures { result ≡ later_of a b }
{
    match (a, b) {
        (Some(x), Some(y)) if x.index() < y.index() => Some(y),
        (Some(x), _) => Some(x),
        (None, found) => found,
    }
}

// The lent type, if it is the final function type without supertype of these lists.
fn lent_function(
    lent: Option<TypeId>,
    types: &TombstoneArena<Type, TypeSpace>,
    params: &[ValType],
    results: &[ValType],
) -> Option<TypeId>
    ensures { result ≡ if_of_kind (kinds_in types.now.slots) (function_kind params.now results.now) lent }
{
    let Some(id) = lent else {
        return None;
    };
    match types.get(id) {
        Some(ty) if ty.is_function_of(params, results) => Some(id),
        _ => None,
    }
}

/// The latest final function type without supertype of just these parameters and results.
pub fn found_function(
    index: &Index,
    lent: Option<TypeId>,
    types: &TombstoneArena<Type, TypeSpace>,
    params: &[ValType],
    results: &[ValType],
) -> Option<TypeId>
    requires { IsHeld lent index.now (kinds_in types.now.slots) }
    ensures { result ≡ found_type params.now results.now (table_of types.now.slots []) }
{
    let target = Target::Function(params, results);
    let plain = index.latest(types, target, false);
    let own = index.latest(types, target, true);
    let found = later(plain, own);
    let lent = lent_function(lent, types, params, results);
    later(found, lent)
}
