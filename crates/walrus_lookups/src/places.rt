//! Where instructions were written.
ghost use Rattle.std.specs.Prelude.{◌≡◌, ◌≤◌, length, Contains, IfSome, nat_lt, slice_get, true, false};
ghost use Rattle.std.specs.List.Sorted.{IsPartitionPoint};
ghost use Rattle.walrus_lookups.specs.Places.{Rises, place_at, place_of};

use walrus_instr::InstrLocId;
use walrus_sections::CodeTransform;

// How many of these pairs stand in front of those of the location.
fn count_before(map: &[(InstrLocId, usize)], location: InstrLocId) -> usize
    ensures within { result ≤ length map.now }
    ensures point { Rises map.now → IsPartitionPoint (λ e. nat_lt e.0.0 location.0 ≡ true) (λ e. nat_lt e.0.0 location.0 ≡ false) map.now result }
{
    map.partition_point(
        |pair: &(InstrLocId, usize)| -> bool
            ensures { result ≡ nat_lt pair.now.0.0 location.0 }
        { pair.0.data() < location.data() },
    )
}

// The place of the pair of this number, if it has the location.
fn place_at(map: &[(InstrLocId, usize)], index: usize, location: InstrLocId) -> Option<usize>
    ensures { result ≡ place_at location (slice_get map.now index) }
{
    match map.get(index) {
        Some((found, place)) => {
            if found.data() == location.data() {
                Some(*place)
            } else {
                None
            }
        }
        None => None,
    }
}

/// Where instructions were written.
pub trait Places {
    /// The offset at which the instruction of a location was written, or `None` where none was: it is gone, or the location is no instruction's.
    /// Where several were, that of the first pair. Takes time in proportion to the logarithm of the pairs, as their locations rise.
    fn get(&self, location: InstrLocId) -> Option<usize>;
}

impl Places for CodeTransform {
    fn get(&self, location: InstrLocId) -> Option<usize>
        ensures there { IfSome result (λ place. Contains self.now.instruction_map.items (location, place)) }
        ensures place { Rises self.now.instruction_map.items → result ≡ place_of location self.now.instruction_map.items }
    {
        let map = self.instruction_map.as_slice();
        place_at(map, count_before(map, location), location)
    }
}
