//! Laws of the words that the contracts of this crate cite. Each function is its contract alone.
ghost use Rattle.std.specs.Prelude.{◌≡◌, ℕ, Bool, nat_eq};
ghost use Rattle.std.specs.Ordering.{nat_cmp};
ghost use Rattle.walrus_arena.specs.contracts.id.IdOrd.TheImpl as id_ord;
ghost use Rattle.walrus_arena.specs.contracts.id.IdPartialEq.TheImpl as id_eq;
ghost use Rattle.walrus_arena.specs.Laws.{EntriesAreLive, FindsLowest, LiveIdsAreGivenOut};

use crate::arena::TombstoneArena;

/// An arena's entries are its live items, each once, by rising id; its live ids were given out before.
pub fn entries_are_live<T, S>(arena: &TombstoneArena<T, S>)
    ensures entries { EntriesAreLive arena.now }
    ensures given_out { LiveIdsAreGivenOut arena.now }
{
    let _ = arena;
}

/// A search answers the lowest live id whose item passes the test.
pub fn search_finds_lowest<T, S>(arena: &TombstoneArena<T, S>)
    ensures { (test : T → Bool) → FindsLowest test arena.now }
{
    let _ = arena;
}

/// Two ids of a space are equal exactly where their numbers are, and are ordered as these are.
pub fn ids_go_by_number<S>()
    ensures equal { (a b : ℕ) → (id_eq.eq-value S.row).it a b ≡ nat_eq a b }
    ensures ordered { (a b : ℕ) → (id_ord.cmp-value S.row).it a b ≡ nat_cmp a b }
{}
