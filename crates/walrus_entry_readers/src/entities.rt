//! Functions, tables, memories, tags and globals.

ghost use Rattle.std.specs.Prelude.{◌≡◌, OnOk};
ghost use Rattle.walrus_known_sections.specs.wasm_sections.wasm_grammar.wasm_formats.Led.{led};
ghost use Rattle.walrus_known_sections.specs.wasm_sections.wasm_grammar.wasm_formats.Joined.{after};
ghost use Rattle.wasm_reader.specs.Reading.{plain};
ghost use Rattle.walrus_known_sections.specs.wasm_sections.wasm_grammar.States.{function_type, known};
ghost use Rattle.walrus_known_sections.specs.wasm_sections.wasm_grammar.Exprs.{expr, offset};
ghost use Rattle.walrus_known_sections.specs.wasm_sections.Entities.{add_function, function_entry, add_global, add_memory, add_table, add_tag, global_entry, global_type, initialised, memory_entry, mutability, table_apart, table_entry, table_some, table_type, table_wants, tag_entry, tag_type};
ghost use Rattle.walrus_section_reader.specs.Parses.{Parses, ParsesExactly};
ghost use Rattle.walrus_section_values.specs.Globals.{expr_of};
ghost use Rattle.walrus_section_values.specs.Limits.{memory_type_of};
ghost use Rattle.walrus_known_sections.specs.Items.{global_type_of, table_type_of};
ghost use Rattle.walrus_entry_readers.specs.Entries.{global_entry_of, init_table_of, initialised_of, table_entry_of, tag_type_of};
ghost use Rattle.walrus_known_sections.specs.State.{state_of};

use std::alloc::{AllocError, Global as Alloc};
use walrus_known_sections::{
    Function, GlobalType, Memory, Sections, Table, TableType, Tag, in_room,
};
use walrus_operators::Operator;
use walrus_section_reader::{Fault, FaultKind, Form, Limited, Result, Space};
use walrus_section_values::{
    Global, GlobalOrigin, MemoryType, read_below, read_expr, read_memory_limits, read_offset,
    read_ref_type, read_table_limits, read_value_type, read_zero, take_byte,
};
use wasm_reader::BinaryReader;

/// The number of a function type. Others are `TypeForm`, where there is none `Index`, at the first byte.
pub(crate) fn read_function_type(
    sections: &Sections<'_>,
    reader: &mut BinaryReader<'_>,
) -> Result<u32>
    ensures { ParsesExactly (function_type (state_of sections.now)).parse plain reader.old reader.new result }
{
    let offset = reader.original_position();
    let index = reader.read_var_u32()?;
    match sections.types.is_function(index) {
        Some(true) => Ok(index),
        Some(false) => Err(Fault::new(FaultKind::TypeForm, offset)),
        None => Err(Fault::new(FaultKind::Index(Space::Type), offset)),
    }
}

/// The type of a table.
pub(crate) fn read_table_type(
    alloc: Alloc,
    sections: &Sections<'_>,
    reader: &mut BinaryReader<'_>,
) -> Result<TableType>
    ensures { ParsesExactly (table_type reader.old.window.features (state_of sections.now)).parse table_type_of reader.old reader.new result }
{
    let element = read_ref_type(alloc, sections.types.len(), reader)?;
    let limits = read_table_limits(reader)?;
    Ok(TableType { element, limits })
}

// Whether a global can be written. Shared ones are `Unsupported`.
fn read_mutability(reader: &mut BinaryReader<'_>) -> Result<u8>
    ensures { ParsesExactly mutability.parse plain reader.old reader.new result }
{
    let offset = reader.original_position();
    let byte = read_below(4, reader)?;
    if byte >= 2 {
        let kind = FaultKind::Unsupported(Form::SharedGlobal);
        return Err(Fault::new(kind, offset));
    }
    Ok(byte)
}

/// The type of a global.
pub(crate) fn read_global_type(
    alloc: Alloc,
    sections: &Sections<'_>,
    reader: &mut BinaryReader<'_>,
) -> Result<GlobalType>
    ensures { ParsesExactly (global_type reader.old.window.features (state_of sections.now)).parse global_type_of reader.old reader.new result }
{
    let ty = read_value_type(alloc, sections.types.len(), reader)?;
    let mutability = read_mutability(reader)?;
    Ok(GlobalType { ty, mutability })
}

/// The type of a tag: 00 and a function type.
pub(crate) fn read_tag_type(sections: &Sections<'_>, reader: &mut BinaryReader<'_>) -> Result<u32>
    ensures { ParsesExactly (tag_type (state_of sections.now)).parse tag_type_of reader.old reader.new result }
{
    read_zero(reader)?;
    read_function_type(sections, reader)
}

// A function type, where there is room for one more function.
pub(crate) fn read_function(sections: &Sections<'_>, reader: &mut BinaryReader<'_>) -> Result<u32>
    ensures { ParsesExactly (function_entry (state_of sections.now)).parse plain reader.old reader.new result }
{
    let offset = reader.original_position();
    let ty = read_function_type(sections, reader)?;
    if !sections.has_function_room() {
        let kind = FaultKind::Limit(Limited::Functions);
        return Err(Fault::new(kind, offset));
    }
    Ok(ty)
}

/// A table of the module's own: its type, and what its elements are to begin with.
#[derive(Drop)]
pub struct TableEntry {
    pub ty: TableType,
    pub init: Option<Vec<Operator>>,
}

/// A global of the module's own: its type, and what it holds to begin with.
#[derive(Drop)]
pub struct GlobalEntry {
    pub ty: GlobalType,
    pub init: Vec<Operator>,
}

/// A constant expression over what is known here.
pub fn read_init(
    alloc: Alloc,
    sections: &Sections<'_>,
    reader: &mut BinaryReader<'_>,
) -> Result<Vec<Operator>>
    ensures { Parses (expr reader.old.window.features (known (state_of sections.now))).parse expr_of reader.old reader.new result }
{
    read_expr(alloc, &sections.known(), reader)
}

/// The offset of a segment over what is known here.
pub fn read_place(
    alloc: Alloc,
    wide: bool,
    sections: &Sections<'_>,
    reader: &mut BinaryReader<'_>,
) -> Result<Vec<Operator>>
    ensures { Parses (offset reader.old.window.features wide (known (state_of sections.now))).parse expr_of reader.old reader.new result }
{
    read_offset(alloc, wide, &sections.known(), reader)
}

// A global's type, and a constant expression.
fn read_own_global(
    alloc: Alloc,
    sections: &Sections<'_>,
    reader: &mut BinaryReader<'_>,
) -> Result<GlobalEntry>
    ensures { Parses (after (global_type reader.old.window.features (state_of sections.now)) (λ _. expr reader.old.window.features (known (state_of sections.now)))).parse global_entry_of reader.old reader.new result }
{
    let ty = read_global_type(alloc, sections, reader)?;
    let init = read_init(alloc, sections, reader)?;
    Ok(GlobalEntry { ty, init })
}

// The type of a table, and what its elements are to begin with.
fn read_init_table(
    alloc: Alloc,
    sections: &Sections<'_>,
    reader: &mut BinaryReader<'_>,
) -> Result<(TableType, Vec<Operator>)>
    ensures { Parses (after (table_type reader.old.window.features (state_of sections.now)) (λ _. expr reader.old.window.features (known (state_of sections.now)))).parse init_table_of reader.old reader.new result }
{
    let ty = read_table_type(alloc, sections, reader)?;
    let init = read_init(alloc, sections, reader)?;
    Ok((ty, init))
}

// The same behind 00.
fn read_initialised(
    alloc: Alloc,
    sections: &Sections<'_>,
    reader: &mut BinaryReader<'_>,
) -> Result<(TableType, Vec<Operator>)>
    ensures { Parses (initialised reader.old.window.features (state_of sections.now)).parse initialised_of reader.old reader.new result }
{
    read_zero(reader)?;
    read_init_table(alloc, sections, reader)
}

// A table's type, or 40 and a table with what its elements are to begin with.
fn read_own_table(
    alloc: Alloc,
    sections: &Sections<'_>,
    reader: &mut BinaryReader<'_>,
) -> Result<TableEntry>
    ensures { Parses (led 0x40 (initialised reader.old.window.features (state_of sections.now)) (table_type reader.old.window.features (state_of sections.now)) (table_apart reader.old.window.features (state_of sections.now)) (table_some reader.old.window.features (state_of sections.now)) (table_wants reader.old.window.features (state_of sections.now))).parse table_entry_of reader.old reader.new result }
{
    if take_byte(0x40, reader) {
        let (ty, init) = read_initialised(alloc, sections, reader)?;
        return Ok(TableEntry {
            ty,
            init: Some(init),
        });
    }
    let ty = read_table_type(alloc, sections, reader)?;
    Ok(TableEntry { ty, init: None })
}

// A table, where there is room for one more.
pub(crate) fn read_table(
    alloc: Alloc,
    sections: &Sections<'_>,
    reader: &mut BinaryReader<'_>,
) -> Result<TableEntry>
    ensures { Parses (table_entry reader.old.window.features (state_of sections.now)).parse table_entry_of reader.old reader.new result }
{
    let offset = reader.original_position();
    let room = sections.has_table_room();
    let read = read_own_table(alloc, sections, reader);
    in_room(room, Limited::Tables, offset, read)
}

// A memory, where there is room for one more.
pub(crate) fn read_memory(
    sections: &Sections<'_>,
    reader: &mut BinaryReader<'_>,
) -> Result<MemoryType>
    ensures { Parses (memory_entry (state_of sections.now)).parse memory_type_of reader.old reader.new result }
{
    read_memory_limits(sections.has_memory_room(), reader)
}

// A tag, where there is room for one more.
pub(crate) fn read_tag(sections: &Sections<'_>, reader: &mut BinaryReader<'_>) -> Result<u32>
    ensures { Parses (tag_entry (state_of sections.now)).parse tag_type_of reader.old reader.new result }
{
    let offset = reader.original_position();
    let room = sections.has_tag_room();
    let read = read_tag_type(sections, reader);
    in_room(room, Limited::Tags, offset, read)
}

// A global, where there is room for one more.
pub(crate) fn read_global(
    alloc: Alloc,
    sections: &Sections<'_>,
    reader: &mut BinaryReader<'_>,
) -> Result<GlobalEntry>
    ensures { Parses (global_entry reader.old.window.features (state_of sections.now)).parse global_entry_of reader.old reader.new result }
{
    let offset = reader.original_position();
    let room = sections.has_global_room();
    let read = read_own_global(alloc, sections, reader);
    in_room(room, Limited::Globals, offset, read)
}

pub(crate) fn add_function(sections: &mut Sections<'_>, ty: u32) -> Result<(), AllocError>
    ensures { OnOk result (state_of sections.new ≡ add_function (state_of sections.old) ty) }
{
    sections.functions.push(Function { ty, import: None })?;
    Ok(())
}

pub(crate) fn add_table(sections: &mut Sections<'_>, entry: TableEntry) -> Result<(), AllocError>
    ensures { OnOk result (state_of sections.new ≡ add_table (state_of sections.old) (table_entry_of entry)) }
{
    let TableEntry { ty, init } = entry;
    sections.tables.push(Table {
        ty,
        init,
        import: None,
    })?;
    Ok(())
}

pub(crate) fn add_memory(sections: &mut Sections<'_>, ty: MemoryType) -> Result<(), AllocError>
    ensures { OnOk result (state_of sections.new ≡ add_memory (state_of sections.old) (memory_type_of ty)) }
{
    sections.memories.push(Memory { ty, import: None })?;
    Ok(())
}

pub(crate) fn add_tag(sections: &mut Sections<'_>, ty: u32) -> Result<(), AllocError>
    ensures { OnOk result (state_of sections.new ≡ add_tag (state_of sections.old) (tag_type_of ty)) }
{
    sections.tags.push(Tag { ty, import: None })?;
    Ok(())
}

pub(crate) fn add_global(sections: &mut Sections<'_>, entry: GlobalEntry) -> Result<(), AllocError>
    ensures { OnOk result (state_of sections.new ≡ add_global (state_of sections.old) (global_entry_of entry)) }
{
    let GlobalEntry { ty, init } = entry;
    sections.globals.push(Global {
        ty: ty.ty,
        mutable: ty.mutability == 1,
        origin: GlobalOrigin::Own(init),
    })?;
    Ok(())
}
