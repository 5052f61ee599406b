//! Ids: numbers of a space, each the count of the ids of that space given out before.
ghost use Rattle.std.specs.Prelude.{◌≡◌, ◌<◌, ◌^◌};

use std::collections::{HashMap, HashSet};
use std::marker::{Model, PhantomData};

/// The id of an item in the space `S`: how many ids were given out before it.
///
/// Ids are equal, ordered and hashed by that number.
#[derive_where(Clone, Copy, PartialEq, Eq, PartialOrd, Ord, Hash, Debug)]
pub struct Id<S> {
    index: u32,
    space: PhantomData<S>,
}

impl<S> Model for Id<S> {
    ghost use Rattle.std.specs.Prelude.{ℕ};

    ghost Value = { ℕ };

    ghost view = { λ id. id.index };

    ghost inverse = { λ n. record { index = n; space = record {} } };
}

impl<S> Id<S> {
    /// The id of this number, which is below 2^32.
    pub fn from_index(index: usize) -> Self
        requires fits { index < 2 ^ 32 }
        ensures { result ≡ index }
    {
        Id {
            index: index as u32,
            space: PhantomData,
        }
    }

    /// The number of this id: the count of ids given out before it.
    pub fn index(self) -> usize
        ensures { result ≡ self }
    {
        self.index as usize
    }

    /// The number of this id, as the 32 bits that it is kept in.
    pub fn number(self) -> u32
        ensures { result ≡ self }
    {
        self.index
    }
}

/// A map keyed by the ids of the space `S`.
pub type IdHashMap<S, V> = HashMap<Id<S>, V>;

/// A set of ids of the space `S`.
pub type IdHashSet<S> = HashSet<Id<S>>;

/// The space of types.
#[derive(Clone, Copy)]
pub struct TypeSpace;

/// The id in the space of types.
pub type TypeId = Id<TypeSpace>;

/// The space of recursion groups.
#[derive(Clone, Copy)]
pub struct RecGroupSpace;

/// The id in the space of recursion groups.
pub type RecGroupId = Id<RecGroupSpace>;

/// The space of functions.
#[derive(Clone, Copy)]
pub struct FunctionSpace;

/// The id in the space of functions.
pub type FunctionId = Id<FunctionSpace>;

/// The space of tables.
#[derive(Clone, Copy)]
pub struct TableSpace;

/// The id in the space of tables.
pub type TableId = Id<TableSpace>;

/// The space of memories.
#[derive(Clone, Copy)]
pub struct MemorySpace;

/// The id in the space of memories.
pub type MemoryId = Id<MemorySpace>;

/// The space of tags.
#[derive(Clone, Copy)]
pub struct TagSpace;

/// The id in the space of tags.
pub type TagId = Id<TagSpace>;

/// The space of globals.
#[derive(Clone, Copy)]
pub struct GlobalSpace;

/// The id in the space of globals.
pub type GlobalId = Id<GlobalSpace>;

/// The space of element segments.
#[derive(Clone, Copy)]
pub struct ElementSpace;

/// The id in the space of element segments.
pub type ElementId = Id<ElementSpace>;

/// The space of data segments.
#[derive(Clone, Copy)]
pub struct DataSpace;

/// The id in the space of data segments.
pub type DataId = Id<DataSpace>;

/// The space of imports.
#[derive(Clone, Copy)]
pub struct ImportSpace;

/// The id in the space of imports.
pub type ImportId = Id<ImportSpace>;

/// The space of exports.
#[derive(Clone, Copy)]
pub struct ExportSpace;

/// The id in the space of exports.
pub type ExportId = Id<ExportSpace>;

/// The space of locals.
#[derive(Clone, Copy)]
pub struct LocalSpace;

/// The id in the space of locals.
pub type LocalId = Id<LocalSpace>;

/// The space of instruction sequences.
#[derive(Clone, Copy)]
pub struct InstrSeqSpace;

/// The id in the space of instruction sequences.
pub type InstrSeqId = Id<InstrSeqSpace>;

/// The space of custom sections.
#[derive(Clone, Copy)]
pub struct UntypedCustomSectionSpace;

/// The id in the space of custom sections.
pub type UntypedCustomSectionId = Id<UntypedCustomSectionSpace>;
