//! The one type that is lent, and its way back.
ghost use Rattle.std.specs.Prelude.{◌≡◌, true, None, Some};
ghost use Rattle.walrus_type_index.specs.Places.{kinds_in, hashed_at};
ghost use Rattle.walrus_type_index.specs.Ordered.{IsHeld, lives_at};

use crate::hash::hashed;
use crate::index::Index;
use crate::node::Hashed;
use walrus_items::Type;
use walrus_items::arena::{TombstoneArena, TypeId, TypeSpace};

/// Puts the one live type that is not in the index into it. Takes no memory.
pub fn enter(index: &mut Index, types: &TombstoneArena<Type, TypeSpace>, id: TypeId)
    requires { IsHeld (Some id) index.old (kinds_in types.now.slots) }
    ensures held { IsHeld None index.new (kinds_in types.now.slots) }
    ensures room { index.new.room ≡ index.old.room }
{
    enter_hashed(index, types, hashed(types, id));
}

/// The same, where the hash of the type is known.
pub fn enter_hashed(index: &mut Index, types: &TombstoneArena<Type, TypeSpace>, hashed: Hashed)
    requires held { IsHeld (Some hashed.id) index.old (kinds_in types.now.slots) }
    requires hash { hashed ≡ hashed_at (kinds_in types.now.slots) hashed.id }
    ensures held { IsHeld None index.new (kinds_in types.now.slots) }
    ensures room { index.new.room ≡ index.old.room }
{
    index.put(types, hashed);
}

/// Puts the type that was lent back into the index. Takes no memory.
pub fn settle(index: &mut Index, lent: &mut Option<TypeId>, types: &TombstoneArena<Type, TypeSpace>)
    requires { IsHeld lent.old index.old (kinds_in types.now.slots) }
    ensures lent { lent.new ≡ None }
    ensures index { IsHeld None index.new (kinds_in types.now.slots) }
{
    if let Some(id) = lent.take() {
        enter(index, types, id);
    }
}

/// Takes a live type out of the index, to be changed or deleted. Takes no memory.
pub fn lend(
    index: &mut Index,
    lent: &mut Option<TypeId>,
    types: &TombstoneArena<Type, TypeSpace>,
    id: TypeId,
)
    requires ordered { IsHeld lent.old index.old (kinds_in types.now.slots) }
    requires lives { lives_at (kinds_in types.now.slots) id ≡ true }
    ensures lent { lent.new ≡ Some id }
    ensures index { IsHeld (Some id) index.new (kinds_in types.now.slots) }
{
    settle(index, lent, types);
    *lent = index.take(types, id);
}
