//! Items of a module.
ghost use Rattle.std.specs.Prelude.{◌≡◌, ◌<◌};
ghost use Rattle.wasm_formats.specs.declared.fault.Space.TheVariants as spaces;
ghost use Rattle.walrus_roots.specs.Items.{item, space_number};

use walrus_arena::Id;
use wasm_formats::Space;

/// An item of a module: its space, and its id there.
#[derive(Clone, Copy, Debug, PartialEq, Eq)]
pub struct Item {
    /// The space.
    pub space: Space,
    /// The number of the id.
    pub id: u32,
}

impl Item {
    /// The item of an id in the space whose ids these are.
    pub fn new<S>(space: Space, id: Id<S>) -> Self
        ensures { result ≡ item space id }
    {
        Item {
            space,
            id: id.number(),
        }
    }

    /// The id, in the space of items of this kind.
    pub fn id<S>(self) -> Id<S>
        ensures { result ≡ self.id }
    {
        Id::from_index(self.id as usize)
    }

    /// The number of its space, by which flags of items are kept.
    pub fn space_number(self) -> usize
        ensures number { result ≡ space_number self.space }
        ensures below { result < 10 }
    {
        match self.space {
            Space::Type => 0,
            Space::Function => 1,
            Space::Table => 2,
            Space::Memory => 3,
            Space::Tag => 4,
            Space::Global => 5,
            Space::Element => 6,
            Space::Data => 7,
            Space::Local => 8,
            Space::Label => 9,
        }
    }
}
