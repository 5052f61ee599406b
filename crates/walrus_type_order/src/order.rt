//! Sorting around anchors.
ghost use Rattle.std.specs.Prelude.{◌≡◌, ◌<◌, ◌^◌, All, IfOk, length, map};
ghost use Rattle.std.specs.List.{range_with_len};
ghost use Rattle.walrus_type_order.specs.Order.{IsEmissionOrder};
ghost use Rattle.walrus_type_order.specs.Places.{IsPlaceIn};

use std::alloc::{AllocError, Global};

/// Where an entry is to stand: after the anchors before it, an anchor first in its run, the others by
/// key, equal ones by position.
#[derive(PartialEq, Eq, PartialOrd, Ord, Drop)]
struct Place<T> {
    // How many anchors stand up to the entry, an anchor itself among them.
    anchors: usize,
    // None for an anchor.
    key: Option<T>,
    position: usize,
}

/// The places of all entries.
fn places<T: Copy>(alloc: Global, entries: &[Option<T>]) -> Result<Vec<Place<T>>, AllocError>
    ensures positions { IfOk result (λ places. map (λ p. p.position) places.items ≡ range_with_len 0 (length entries.now)) }
    ensures places { IfOk result (λ places. All (IsPlaceIn entries.now) places.items) }
{
    let mut places = Vec::with_capacity(alloc, entries.len())?;
    let mut anchors = 0;
    for (position, key) in entries.iter().enumerate() {
        if key.is_none() {
            anchors += 1;
        }
        places.push(Place {
            anchors,
            key: *key,
            position,
        })?;
    }
    Ok(places)
}

/// The positions of these places.
fn positions_of<T>(alloc: Global, places: &[Place<T>]) -> Result<Vec<usize>, AllocError>
    ensures { IfOk result (λ positions. positions.items ≡ map (λ p. p.position) places.now) }
{
    places.iter().map(|place| place.position).collect(alloc)
}

/// The positions of the entries in the order in which they are written. An entry has its key, or `None`
/// where it is an anchor.
///
/// Anchors keep their order, and no entry passes one. The entries of each run before, between or after
/// anchors are sorted by key, equal ones by position.
///
/// # Errors
///
/// Want of memory.
pub fn emission_order<T: Ord + Copy>(
    alloc: Global,
    entries: &[Option<T>],
) -> Result<Vec<usize>, AllocError>
    ensures { IfOk result (λ order. IsEmissionOrder T.cmp entries.now order.items) }
{
    let mut places = places(alloc, entries)?;
    places.sort()?;
    positions_of(alloc, places.as_slice())
}
