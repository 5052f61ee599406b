//! The import section (Core Specification, binary format: import section).

ghost use Rattle.std.specs.Prelude.{◌≡◌, length, OnOk, option_map, Some, None};
ghost use Rattle.walrus_known_sections.specs.wasm_sections.wasm_grammar.wasm_formats.Joined.{after};
ghost use Rattle.walrus_known_sections.specs.wasm_sections.wasm_grammar.wasm_formats.Bytes.{literal};
ghost use Rattle.walrus_known_sections.specs.wasm_sections.wasm_grammar.wasm_formats.Stops.{Read};
ghost use Rattle.walrus_known_sections.specs.wasm_sections.wasm_grammar.wasm_formats.Wholes.{u32};
ghost use Rattle.wasm_reader.specs.declared.error.ErrorKind.TheVariants as kinds;
ghost use Rattle.walrus_known_sections.specs.wasm_sections.wasm_grammar.States.{has_room, limited, type_count};
ghost use Rattle.walrus_known_sections.specs.wasm_sections.wasm_grammar.Values.{byte_below, limits, ref_type, value_type};
ghost use Rattle.walrus_known_sections.specs.wasm_sections.Entities.{add_entity, add_import, entity, entity_read, import_entry, import_of, next_number, space_of, with_import};
ghost use Rattle.walrus_section_reader.specs.Faults.{trouble_of};
ghost use Rattle.walrus_section_reader.specs.Parses.{ParsesExactly};
ghost use Rattle.walrus_entry_readers.specs.Entries.{tag_type_of};
ghost use Rattle.walrus_entry_readers.specs.Imports.{entity_of, entity_test, front, front_of, import_entry_of};
ghost use Rattle.walrus_known_sections.specs.Items.{global_type_of, table_type_of};
ghost use Rattle.walrus_known_sections.specs.State.{state_of};

use crate::entities::{read_function_type, read_global_type, read_table_type, read_tag_type};
use std::alloc::{AllocError, Global as Alloc};
use walrus_known_sections::{
    Entry, Function, GlobalType, Import, Memory, Sections, Table, TableType, Tag,
};
use walrus_section_reader::{Fault, FaultKind, Limited, Result, Space};
use walrus_section_values::{
    Global, GlobalOrigin, MemoryType, read_below, read_limits, read_memory_limits,
    read_memory_numbers, read_name, read_ref_type, read_u32, read_value_type, read_zero,
};
use wasm_reader::limits::MAX_WASM_IMPORTS;
use wasm_reader::{BinaryReader, ErrorKind};

/// What is imported.
#[derive(Clone, Copy)]
pub enum Entity {
    /// A function of the type of this number.
    Function(u32),
    Table(TableType),
    Memory(MemoryType),
    Global(GlobalType),
    /// A tag of the type of this number.
    Tag(u32),
}

/// An import as it stands: the name of its module, its own, its kind, and what it brings.
#[derive(Clone, Copy)]
pub struct ImportEntry<'a> {
    pub module: &'a str,
    pub name: &'a str,
    pub kind: u8,
    pub entity: Entity,
}

// A table's type, of whose limits nothing is asked.
fn read_any_table(
    alloc: Alloc,
    sections: &Sections<'_>,
    reader: &mut BinaryReader<'_>,
) -> Result<TableType>
    ensures { ParsesExactly (after (ref_type reader.old.window.features (type_count (state_of sections.now))) (λ _. limits 8)).parse table_type_of reader.old reader.new result }
{
    let element = read_ref_type(alloc, sections.types.len(), reader)?;
    let limits = read_limits(8, reader)?;
    Ok(TableType { element, limits })
}

// A global's type, shared or not.
fn read_any_global(
    alloc: Alloc,
    sections: &Sections<'_>,
    reader: &mut BinaryReader<'_>,
) -> Result<GlobalType>
    ensures { ParsesExactly (after (value_type reader.old.window.features (type_count (state_of sections.now))) (λ _. byte_below 4)).parse global_type_of reader.old reader.new result }
{
    let ty = read_value_type(alloc, sections.types.len(), reader)?;
    let mutability = read_below(4, reader)?;
    Ok(GlobalType { ty, mutability })
}

// A tag's type, whatever that is.
fn read_any_tag(reader: &mut BinaryReader<'_>) -> Result<u32>
    ensures { ParsesExactly (after (literal 0 (Read kinds.BadByte)) (λ _. u32)).parse tag_type_of reader.old reader.new result }
{
    read_zero(reader)?;
    read_u32(reader)
}

// What an import of this kind brings, before what ends it is tested.
fn read_any_entity(
    alloc: Alloc,
    kind: u8,
    sections: &Sections<'_>,
    reader: &mut BinaryReader<'_>,
) -> Result<Entity>
    ensures { ParsesExactly (entity_read reader.old.window.features (state_of sections.now) kind).parse entity_of reader.old reader.new result }
{
    match kind {
        0 => Ok(Entity::Function(read_u32(reader)?)),
        1 => Ok(Entity::Table(read_any_table(alloc, sections, reader)?)),
        2 => Ok(Entity::Memory(read_memory_numbers(reader)?)),
        3 => Ok(Entity::Global(read_any_global(alloc, sections, reader)?)),
        4 => Ok(Entity::Tag(read_any_tag(reader)?)),
        _ => {
            let kind = FaultKind::Read(ErrorKind::BadByte);
            Err(Fault::new(kind, reader.original_position()))
        }
    }
}

// What an import of this kind brings.
fn read_entity(
    alloc: Alloc,
    kind: u8,
    sections: &Sections<'_>,
    reader: &mut BinaryReader<'_>,
) -> Result<Entity>
    ensures { ParsesExactly (entity reader.old.window.features (state_of sections.now) kind).parse entity_of reader.old reader.new result }
{
    match kind {
        0 => Ok(Entity::Function(read_function_type(sections, reader)?)),
        1 => Ok(Entity::Table(read_table_type(alloc, sections, reader)?)),
        2 => Ok(Entity::Memory(read_memory_limits(true, reader)?)),
        3 => Ok(Entity::Global(read_global_type(alloc, sections, reader)?)),
        4 => Ok(Entity::Tag(read_tag_type(sections, reader)?)),
        _ => {
            let kind = FaultKind::Read(ErrorKind::BadByte);
            Err(Fault::new(kind, reader.original_position()))
        }
    }
}

// The names of an import, and its kind.
fn read_front<'a>(reader: &mut BinaryReader<'a>) -> Result<(&'a str, &'a str, u8)>
    ensures { ParsesExactly front.parse front_of reader.old reader.new result }
{
    let module = read_name(reader)?;
    let name = read_name(reader)?;
    let kind = read_below(5, reader)?;
    Ok((module, name, kind))
}

// The space of what is imported.
fn space_of(entity: Entity) -> Space
    ensures { result ≡ space_of (entity_of entity) }
{
    match entity {
        Entity::Function(_) => Space::Function,
        Entity::Table(_) => Space::Table,
        Entity::Memory(_) => Space::Memory,
        Entity::Global(_) => Space::Global,
        Entity::Tag(_) => Space::Tag,
    }
}

// What an import of this is refused for: one more import, or one more item of its space, that there is no room for.
fn import_fault(sections: &Sections<'_>, entity: Entity) -> Option<FaultKind>
    ensures { option_map trouble_of result ≡ entity_test (state_of sections.now) (entity_of entity) }
{
    if sections.imports.len() >= MAX_WASM_IMPORTS {
        return Some(FaultKind::Limit(Limited::Imports));
    }
    match entity {
        Entity::Function(_) if !sections.has_function_room() => {
            Some(FaultKind::Limit(Limited::Functions))
        }
        Entity::Table(_) if !sections.has_table_room() => Some(FaultKind::Limit(Limited::Tables)),
        Entity::Memory(_) if !sections.has_memory_room() => {
            Some(FaultKind::Limit(Limited::Memories))
        }
        Entity::Global(_) if !sections.has_global_room() => {
            Some(FaultKind::Limit(Limited::Globals))
        }
        Entity::Tag(_) if !sections.has_tag_room() => Some(FaultKind::Limit(Limited::Tags)),
        _ => None,
    }
}

// An import: it is read ahead, then it is tested whether there is room for it, and then what ends it.
fn read_import<'a>(
    alloc: Alloc,
    sections: &Sections<'a>,
    reader: &mut BinaryReader<'a>,
) -> Result<ImportEntry<'a>>
    ensures { ParsesExactly (import_entry reader.old.window.features (state_of sections.now)).parse import_entry_of reader.old reader.new result }
{
    let offset = reader.original_position();
    let (module, name, kind) = read_front(reader)?;
    let mut ahead = reader.shrink();
    let any = read_any_entity(alloc, kind, sections, &mut ahead)?;
    match import_fault(sections, any) {
        Some(fault) => return Err(Fault::new(fault, offset)),
        None => {}
    }
    let entity = read_entity(alloc, kind, sections, reader)?;
    Ok(ImportEntry {
        module,
        name,
        kind,
        entity,
    })
}

// The item that the import of this number brings.
fn add_entity(sections: &mut Sections<'_>, number: usize, entity: Entity) -> Result<(), AllocError>
    ensures { OnOk result (state_of sections.new ≡ add_entity (state_of sections.old) number (entity_of entity)) }
{
    let import = Some(number);
    match entity {
        Entity::Function(ty) => {
            let Some(imported) = sections.imported.checked_add(1) else {
                return Err(AllocError);
            };
            sections.functions.push(Function { ty, import })?;
            sections.imported = imported;
        }
        Entity::Table(ty) => sections.tables.push(Table {
            ty,
            init: None,
            import,
        })?,
        Entity::Memory(ty) => sections.memories.push(Memory { ty, import })?,
        Entity::Global(ty) => sections.globals.push(Global {
            ty: ty.ty,
            mutable: ty.mutability == 1,
            origin: GlobalOrigin::Import(number),
        })?,
        Entity::Tag(ty) => sections.tags.push(Tag { ty, import })?,
    }
    Ok(())
}

// How many items there are of the space of what is imported.
fn next_number(sections: &Sections<'_>, entity: Entity) -> usize
    ensures { result ≡ next_number (state_of sections.now) (entity_of entity) }
{
    match entity {
        Entity::Function(_) => sections.functions.len(),
        Entity::Table(_) => sections.tables.len(),
        Entity::Memory(_) => sections.memories.len(),
        Entity::Global(_) => sections.globals.len(),
        Entity::Tag(_) => sections.tags.len(),
    }
}

// The import, without its item.
fn push_import<'a>(sections: &mut Sections<'a>, entry: ImportEntry<'a>) -> Result<(), AllocError>
    ensures { OnOk result (state_of sections.new ≡ with_import (state_of sections.old) (import_of (state_of sections.old) (import_entry_of entry.entry))) }
{
    let index = next_number(sections, entry.entity);
    sections.imports.push(Import {
        module: entry.module,
        name: entry.name,
        space: space_of(entry.entity),
        index,
    })?;
    Ok(())
}

fn import_count(sections: &Sections<'_>) -> usize
    ensures { result ≡ length (state_of sections.now).filled.imports }
{
    sections.imports.len()
}

fn add_import<'a>(sections: &mut Sections<'a>, entry: ImportEntry<'a>) -> Result<(), AllocError>
    ensures { OnOk result (state_of sections.new ≡ add_import (state_of sections.old) (import_entry_of entry.entry)) }
{
    let number = import_count(sections);
    push_import(sections, entry)?;
    add_entity(sections, number, entry.entity)
}

/// Imports.
pub struct Imports;

impl<'a> Entry<'a> for Imports {
    type Value = ImportEntry<'a>;

    ghost use Rattle.walrus_known_sections.specs.wasm_sections.Entities as grammar;
    ghost use Rattle.walrus_entry_readers.specs.Imports.{import_entry_of};

    ghost Seen = { grammar.ImportEntry };

    ghost seen = { import_entry_of };

    ghost parse = { λ features s. (grammar.import_entry features s).parse };

    ghost put = { grammar.add_import };

    fn read(
        alloc: Alloc,
        sections: &Sections<'a>,
        reader: &mut BinaryReader<'a>,
    ) -> Result<Self::Value> {
        read_import(alloc, sections, reader)
    }

    fn add(sections: &mut Sections<'a>, value: Self::Value) -> Result<(), AllocError> {
        add_import(sections, value)
    }
}
