//! The kinds of entries.

ghost use Rattle.std.specs.Prelude.{◌≡◌};

use crate::entities::{
    GlobalEntry, TableEntry, add_function, add_global, add_memory, add_table, add_tag,
    read_function, read_global, read_memory, read_table, read_tag,
};
use std::alloc::{AllocError, Global as Alloc};
use walrus_known_sections::{Entry, Sections};
use walrus_section_reader::Result;
use walrus_section_values::MemoryType;
use wasm_reader::BinaryReader;

/// The types of functions.
pub struct Functions;

impl<'a> Entry<'a> for Functions {
    type Value = u32;

    ghost use Rattle.std.specs.Prelude.{ℕ};
    ghost use Rattle.walrus_known_sections.specs.wasm_sections.Entities.{function_entry, add_function};

    ghost Seen = { ℕ };

    ghost seen = { λ n. n };

    ghost parse = { λ _ s. (function_entry s).parse };

    ghost put = { add_function };

    fn read(
        _alloc: Alloc,
        sections: &Sections<'a>,
        reader: &mut BinaryReader<'a>,
    ) -> Result<Self::Value> {
        read_function(sections, reader)
    }

    fn add(sections: &mut Sections<'a>, value: Self::Value) -> Result<(), AllocError> {
        add_function(sections, value)
    }
}

/// Tables.
pub struct Tables;

impl<'a> Entry<'a> for Tables {
    type Value = TableEntry;

    ghost use Rattle.walrus_known_sections.specs.wasm_sections.Entities.{table_entry, add_table};
    ghost use Rattle.walrus_known_sections.specs.wasm_sections.Entities as grammar;
    ghost use Rattle.walrus_entry_readers.specs.Entries.{table_entry_of};

    ghost Seen = { grammar.TableEntry };

    ghost seen = { table_entry_of };

    ghost parse = { λ features s. (table_entry features s).parse };

    ghost put = { add_table };

    fn read(
        alloc: Alloc,
        sections: &Sections<'a>,
        reader: &mut BinaryReader<'a>,
    ) -> Result<Self::Value> {
        read_table(alloc, sections, reader)
    }

    fn add(sections: &mut Sections<'a>, value: Self::Value) -> Result<(), AllocError> {
        add_table(sections, value)
    }
}

/// Memories.
pub struct Memories;

impl<'a> Entry<'a> for Memories {
    type Value = MemoryType;

    ghost use Rattle.walrus_known_sections.specs.wasm_sections.Entities.{memory_entry, add_memory};
    ghost use Rattle.walrus_known_sections.specs.wasm_sections.Entities as grammar;
    ghost use Rattle.walrus_section_values.specs.Limits.{memory_type_of};

    ghost Seen = { grammar.MemoryType };

    ghost seen = { memory_type_of };

    ghost parse = { λ _ s. (memory_entry s).parse };

    ghost put = { add_memory };

    fn read(
        _alloc: Alloc,
        sections: &Sections<'a>,
        reader: &mut BinaryReader<'a>,
    ) -> Result<Self::Value> {
        read_memory(sections, reader)
    }

    fn add(sections: &mut Sections<'a>, value: Self::Value) -> Result<(), AllocError> {
        add_memory(sections, value)
    }
}

/// Tags.
pub struct Tags;

impl<'a> Entry<'a> for Tags {
    type Value = u32;

    ghost use Rattle.walrus_known_sections.specs.wasm_sections.Entities.{tag_entry, add_tag};
    ghost use Rattle.walrus_known_sections.specs.wasm_sections.Entities as grammar;
    ghost use Rattle.walrus_entry_readers.specs.Entries.{tag_type_of};

    ghost Seen = { grammar.TagType };

    ghost seen = { tag_type_of };

    ghost parse = { λ _ s. (tag_entry s).parse };

    ghost put = { add_tag };

    fn read(
        _alloc: Alloc,
        sections: &Sections<'a>,
        reader: &mut BinaryReader<'a>,
    ) -> Result<Self::Value> {
        read_tag(sections, reader)
    }

    fn add(sections: &mut Sections<'a>, value: Self::Value) -> Result<(), AllocError> {
        add_tag(sections, value)
    }
}

/// Globals.
pub struct Globals;

impl<'a> Entry<'a> for Globals {
    type Value = GlobalEntry;

    ghost use Rattle.walrus_known_sections.specs.wasm_sections.Entities.{global_entry, add_global};
    ghost use Rattle.walrus_known_sections.specs.wasm_sections.Entities as grammar;
    ghost use Rattle.walrus_entry_readers.specs.Entries.{global_entry_of};

    ghost Seen = { grammar.GlobalEntry };

    ghost seen = { global_entry_of };

    ghost parse = { λ features s. (global_entry features s).parse };

    ghost put = { add_global };

    fn read(
        alloc: Alloc,
        sections: &Sections<'a>,
        reader: &mut BinaryReader<'a>,
    ) -> Result<Self::Value> {
        read_global(alloc, sections, reader)
    }

    fn add(sections: &mut Sections<'a>, value: Self::Value) -> Result<(), AllocError> {
        add_global(sections, value)
    }
}
