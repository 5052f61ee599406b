//! What there is that can have a name: what has a number.

ghost use Rattle.std.specs.Prelude.{◌≡◌, nat_lt, length};
ghost use Rattle.walrus_index_maps.specs.Views.{ids};
ghost use Rattle.walrus_payloads_into.specs.Numbered.{ids_in, locals_in};
ghost use Rattle.walrus_payloads_into.specs.Counted.{file_of};

use walrus_index_maps::IndicesToIds;
use walrus_payload_readers::Bearers;
use wasm_formats::Space;

// Whether an item of the space has this number.
#[tactic(auto, using(crate::proofs::Lookups::is_within))]
fn has_item(maps: &IndicesToIds, space: Space, number: u32) -> bool
    ensures { result ≡ nat_lt number (length (ids_in (ids maps.now) space)) }
{
    match space {
        Space::Type => maps.get_type(number).is_ok(),
        Space::Function => maps.get_func(number).is_ok(),
        Space::Table => maps.get_table(number).is_ok(),
        Space::Memory => maps.get_memory(number).is_ok(),
        Space::Tag => maps.get_tag(number).is_ok(),
        Space::Global => maps.get_global(number).is_ok(),
        Space::Element => maps.get_element(number).is_ok(),
        Space::Data => maps.get_data(number).is_ok(),
        Space::Local => false,
        Space::Label => false,
    }
}

// Whether a local of the function has this number.
fn has_local(maps: &IndicesToIds, function: u32, number: u32) -> bool
    ensures { result ≡ nat_lt number (length (locals_in (ids maps.now) function)) }
{
    match maps.get_func(function) {
        Ok(id) => maps.get_local(id, number).is_ok(),
        Err(_) => false,
    }
}

/// What the indices of a file number.
#[derive(Clone, Copy)]
pub struct Numbered<'a> {
    /// What they name.
    pub maps: &'a IndicesToIds,
}

impl Bearers for Numbered<'_> {
    ghost file = { λ n. file_of (ids n.maps.now) };

    fn has_item(&self, space: Space, number: u32) -> bool {
        has_item(self.maps, space, number)
    }

    fn has_local(&self, function: u32, number: u32) -> bool {
        has_local(self.maps, function, number)
    }
}
