//! What is in memory of a file while its sections are read, in words of the grammar, and how one more entry is put there.
#![tactic(auto)]

mod entry;
mod items;
mod known_types;
mod rooms;
mod sections;

pub use entry::{Each, Entry};
pub use items::{
    Chunk, Custom, Data, Element, ElementItems, Export, Function, GlobalType, Import, Memory, Mode,
    Table, TableType, Tag,
};
pub use known_types::KnownTypes;
pub use rooms::in_room;
pub use sections::Sections;
