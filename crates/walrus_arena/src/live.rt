//! The list of live items that an arena keeps, each with its id.
ghost use Rattle.std.specs.Prelude.{◌≡◌, ◌-◌, ◌<◌, length, IfSome, slice_get, option_copied};
ghost use Rattle.walrus_arena.specs.Dense.{item_in};

/// The item at a place, or `None` past the last one.
pub(crate) fn item_in<T>(live: &[(u32, T)], place: u32) -> Option<&T>
    ensures { option_copied result ≡ item_in live.now place }
{
    match live.get(place as usize) {
        Some((_, item)) => Some(item),
        None => None,
    }
}

/// The id of the last one. Asks that there is one.
pub(crate) fn last_id<T>(live: &[(u32, T)]) -> u32
    requires { 0 < length live.now }
    ensures { IfSome (slice_get live.now (length live.now - 1)) (λ pair. result ≡ pair.0) }
{
    live[live.len() - 1].0
}
