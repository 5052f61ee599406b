//! What the rarer operators name, alone and in pairs.
ghost use Rattle.std.specs.Prelude.{◌≡◌, [], ◌∷◌};
ghost use Rattle.walrus_operators.specs.Immediates.{items_of};
ghost use Rattle.walrus_operators.specs.wasm_operators.Items.{Names};
ghost use Rattle.walrus_pairing.specs.Looks.{word};
ghost use Rattle.walrus_pairing.specs.Spaces as spaces;

use walrus_arena::Id;
use walrus_index_maps::Space;
use walrus_operators::Immediates;

/// What an operator names. Functions, globals and locals, which frequent operators name, are looked up by themselves.
#[derive(Clone, Copy)]
pub(crate) enum Target {
    Type,
    Table,
    Memory,
    Tag,
    Element,
    Data,
}

/// Two that an operator names. There are no other pairs.
#[derive(Clone, Copy)]
pub(crate) enum Pair {
    TypeTable,
    DataMemory,
    MemoryMemory,
    ElementTable,
    TableTable,
    TypeData,
    TypeElement,
    TypeType,
}

/// The space of what is named.
pub(crate) fn space_of(target: Target) -> Space
    ensures { result ≡ word (spaces.space target) }
{
    match target {
        Target::Type => Space::Type,
        Target::Table => Space::Table,
        Target::Memory => Space::Memory,
        Target::Tag => Space::Tag,
        Target::Element => Space::Element,
        Target::Data => Space::Data,
    }
}

/// The first of two.
pub(crate) fn first_of(pair: Pair) -> Target
    ensures { result ≡ spaces.first_of pair }
{
    match pair {
        Pair::TypeTable | Pair::TypeData | Pair::TypeElement | Pair::TypeType => Target::Type,
        Pair::DataMemory => Target::Data,
        Pair::MemoryMemory => Target::Memory,
        Pair::ElementTable => Target::Element,
        Pair::TableTable => Target::Table,
    }
}

/// The second of two.
pub(crate) fn second_of(pair: Pair) -> Target
    ensures { result ≡ spaces.second_of pair }
{
    match pair {
        Pair::TypeTable | Pair::ElementTable | Pair::TableTable => Target::Table,
        Pair::DataMemory | Pair::MemoryMemory => Target::Memory,
        Pair::TypeData => Target::Data,
        Pair::TypeElement => Target::Element,
        Pair::TypeType => Target::Type,
    }
}

/// What immediates of one name name; of others it isn't asked.
pub(crate) fn target_of(immediates: &Immediates) -> Target
    ensures { result ≡ spaces.target_of immediates.now }
{
    match immediates {
        Immediates::Tag(_) => Target::Tag,
        Immediates::Table(_) => Target::Table,
        Immediates::Memory(_) => Target::Memory,
        Immediates::Data(_) => Target::Data,
        Immediates::Element(_) => Target::Element,
        _ => Target::Type,
    }
}

/// What immediates of two names name; of others it isn't asked.
pub(crate) fn pair_of(immediates: &Immediates) -> Pair
    ensures { result ≡ spaces.pair_of immediates.now }
{
    match immediates {
        Immediates::TypeTable(_, _) => Pair::TypeTable,
        Immediates::DataMemory(_, _) => Pair::DataMemory,
        Immediates::MemoryMemory(_, _) => Pair::MemoryMemory,
        Immediates::ElementTable(_, _) => Pair::ElementTable,
        Immediates::TableTable(_, _) => Pair::TableTable,
        Immediates::TypeData(_, _) => Pair::TypeData,
        Immediates::TypeElement(_, _) => Pair::TypeElement,
        _ => Pair::TypeType,
    }
}

/// Immediates of one name.
pub(crate) fn with_one(target: Target, n: u32) -> Immediates
    ensures { items_of result ≡ Names (spaces.space target) n ∷ [] }
{
    match target {
        Target::Type => Immediates::Type(n),
        Target::Table => Immediates::Table(n),
        Target::Memory => Immediates::Memory(n),
        Target::Tag => Immediates::Tag(n),
        Target::Element => Immediates::Element(n),
        Target::Data => Immediates::Data(n),
    }
}

/// Immediates of two names.
pub(crate) fn with_two(pair: Pair, m: u32, n: u32) -> Immediates
    ensures { items_of result ≡ Names (spaces.space (spaces.first_of pair)) m ∷ Names (spaces.space (spaces.second_of pair)) n ∷ [] }
{
    match pair {
        Pair::TypeTable => Immediates::TypeTable(m, n),
        Pair::DataMemory => Immediates::DataMemory(m, n),
        Pair::MemoryMemory => Immediates::MemoryMemory(m, n),
        Pair::ElementTable => Immediates::ElementTable(m, n),
        Pair::TableTable => Immediates::TableTable(m, n),
        Pair::TypeData => Immediates::TypeData(m, n),
        Pair::TypeElement => Immediates::TypeElement(m, n),
        Pair::TypeType => Immediates::TypeType(m, n),
    }
}

/// The id of this number.
pub(crate) fn id<S>(n: u32) -> Id<S>
    ensures { result ≡ n }
{
    Id::from_index(n as usize)
}
