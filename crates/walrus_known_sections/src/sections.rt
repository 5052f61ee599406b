//! What was read of a file so far.

ghost use Rattle.std.specs.Prelude.{◌≡◌};
ghost use Rattle.wasm_formats.specs.declared.fault.Space.TheVariants as spaces;
ghost use Rattle.wasm_sections.specs.wasm_grammar.States.{has_room, known, nothing_yet};
ghost use Rattle.walrus_section_values.specs.Globals.{known_of};
ghost use Rattle.walrus_known_sections.specs.State.{state_of};

use crate::items::{Chunk, Custom, Data, Element, Export, Function, Import, Memory, Table, Tag};
use crate::known_types::KnownTypes;
use std::alloc::Global as Alloc;
use walrus_section_values::{Global, Known};
use wasm_reader::limits::{
    MAX_WASM_FUNCTIONS, MAX_WASM_GLOBALS, MAX_WASM_MEMORIES, MAX_WASM_TABLES, MAX_WASM_TAGS,
};

/// What was read of a file so far, by spaces; the imported items of a space come first.
#[derive(Drop)]
pub struct Sections<'a> {
    /// The types.
    pub types: KnownTypes,
    /// The imports.
    pub imports: Vec<Import<'a>>,
    /// The functions: their bodies are in `bodies`.
    pub functions: Vec<Function>,
    /// How many of the functions are imported.
    pub imported: usize,
    /// The tables.
    pub tables: Vec<Table>,
    /// The memories.
    pub memories: Vec<Memory>,
    /// The tags.
    pub tags: Vec<Tag>,
    /// The globals.
    pub globals: Vec<Global>,
    /// The exports.
    pub exports: Vec<Export<'a>>,
    /// The start function, if there is one.
    pub start: Option<u32>,
    /// The element segments.
    pub elements: Vec<Element>,
    /// The data segments.
    pub segments: Vec<Data<'a>>,
    /// The custom sections.
    pub customs: Vec<Custom<'a>>,
    /// The data count, if there is one.
    pub data_count: Option<u32>,
    /// The bodies, where there is a code section.
    pub bodies: Option<Vec<Chunk<'a>>>,
    /// The offset of the function count of the code section.
    pub code_start: u64,
    /// The place of the last standard section in their order, 0 before the first.
    pub last: u8,
    /// The offset at which the next section begins.
    pub offset: u64,
}

impl<'a> Sections<'a> {
    /// Nothing was read but the header. Takes no memory.
    pub fn new(alloc: Alloc) -> Self
        ensures { state_of result ≡ nothing_yet }
    {
        Sections {
            types: KnownTypes::new(alloc),
            imports: Vec::new(alloc),
            functions: Vec::new(alloc),
            imported: 0,
            tables: Vec::new(alloc),
            memories: Vec::new(alloc),
            tags: Vec::new(alloc),
            globals: Vec::new(alloc),
            exports: Vec::new(alloc),
            start: None,
            elements: Vec::new(alloc),
            segments: Vec::new(alloc),
            customs: Vec::new(alloc),
            data_count: None,
            bodies: None,
            code_start: 0,
            last: 0,
            offset: 8,
        }
    }

    /// What a constant expression may name here.
    pub fn known(&self) -> Known<'_>
        ensures { known_of result ≡ known (state_of self.now) }
    {
        Known {
            types: self.types.len(),
            functions: self.functions.len(),
            globals: self.globals.as_slice(),
        }
    }

    /// Whether there is room for one more function.
    pub fn has_function_room(&self) -> bool
        ensures { result ≡ has_room (state_of self.now) spaces.Function }
    {
        self.functions.len() < MAX_WASM_FUNCTIONS
    }

    /// Whether there is room for one more table.
    pub fn has_table_room(&self) -> bool
        ensures { result ≡ has_room (state_of self.now) spaces.Table }
    {
        self.tables.len() < MAX_WASM_TABLES
    }

    /// Whether there is room for one more memory.
    pub fn has_memory_room(&self) -> bool
        ensures { result ≡ has_room (state_of self.now) spaces.Memory }
    {
        self.memories.len() < MAX_WASM_MEMORIES
    }

    /// Whether there is room for one more tag.
    pub fn has_tag_room(&self) -> bool
        ensures { result ≡ has_room (state_of self.now) spaces.Tag }
    {
        self.tags.len() < MAX_WASM_TAGS
    }

    /// Whether there is room for one more global.
    pub fn has_global_room(&self) -> bool
        ensures { result ≡ has_room (state_of self.now) spaces.Global }
    {
        self.globals.len() < MAX_WASM_GLOBALS
    }
}
