//! Element and data segments (Core Specification, binary format: element section, data section).

ghost use Rattle.std.specs.Prelude.{◌≡◌, length, slice_index_or, OnOk, None};
ghost use Rattle.walrus_entry_readers.specs.walrus_known_sections.wasm_sections.wasm_grammar.wasm_formats.declared.fault.Space.TheVariants as spaces;
ghost use Rattle.walrus_entry_readers.specs.walrus_known_sections.wasm_sections.wasm_grammar.wasm_formats.Joined.{after};
ghost use Rattle.wasm_reader.specs.Reading.{plain, seen_bytes};
ghost use Rattle.walrus_entry_readers.specs.walrus_known_sections.wasm_sections.wasm_grammar.Exprs.{offset};
ghost use Rattle.walrus_entry_readers.specs.walrus_known_sections.wasm_sections.wasm_grammar.States.{has_room, known, type_count};
ghost use Rattle.walrus_entry_readers.specs.walrus_known_sections.wasm_sections.wasm_grammar.Values.{index, ref_type};
ghost use Rattle.walrus_entry_readers.specs.walrus_known_sections.wasm_sections.Segments.{add_data, add_element, contents, data_entry, data_flags, data_form, element_entry, element_flags, element_form, expressions, functions, into_memory, into_table, kind_of_functions, memory_is_wide, named_memory, named_table, element_of as grammar_element_of, segment_of, table_is_wide, typed};
ghost use Rattle.walrus_forms.specs.Records.{ref_of};
ghost use Rattle.walrus_entry_readers.specs.walrus_section_values.walrus_section_reader.Parses.{Parses, ParsesExactly};
ghost use Rattle.walrus_entry_readers.specs.walrus_section_values.Globals.{expr_of};
ghost use Rattle.walrus_segment_readers.specs.Lists.{exprs_of, numbers_of};
ghost use Rattle.walrus_entry_readers.specs.walrus_known_sections.Items.{data_of, element_of};
ghost use Rattle.walrus_segment_readers.specs.Segments.{both_of, data_form_of, element_form_of, joined, kind_of_functions_of};
ghost use Rattle.walrus_entry_readers.specs.walrus_known_sections.State.{state_of};

use crate::lists::{read_expressions, read_functions};
use std::alloc::{AllocError, Global as Alloc};
use walrus_entry_readers::formats::{Limited, Space};
use walrus_entry_readers::operators::Operator;
use walrus_entry_readers::section_reader::{Fault, FaultKind, Result};
use walrus_entry_readers::section_values::{read_index, read_ref_type, read_u32, read_zero};
use walrus_entry_readers::{
    Data, Element, ElementItems, Entry, Mode, Sections, in_room, read_place,
};
use walrus_forms::{AbstractHeapType, HeapRecord, RefRecord};
use wasm_reader::limits::{MAX_WASM_DATA_SEGMENTS, MAX_WASM_ELEMENT_SEGMENTS};
use wasm_reader::{BinaryReader, ErrorKind};

/// An element segment as it is spelled, by its flags.
#[derive(Drop)]
pub enum ElementForm {
    ActiveFunctions(Vec<Operator>, Vec<u32>),
    PassiveFunctions(Vec<u32>),
    FunctionsInto((u32, Vec<Operator>), Vec<u32>),
    DeclaredFunctions(Vec<u32>),
    ActiveExpressions(Vec<Operator>, Vec<Vec<Operator>>),
    PassiveExpressions(RefRecord, Vec<Vec<Operator>>),
    ExpressionsInto((u32, Vec<Operator>), (RefRecord, Vec<Vec<Operator>>)),
    DeclaredExpressions(RefRecord, Vec<Vec<Operator>>),
}

/// A data segment as it is spelled, by its flags.
#[derive(Drop)]
pub enum DataForm<'a> {
    Active(Vec<Operator>, &'a [u8]),
    Passive(&'a [u8]),
    Into((u32, Vec<Operator>), &'a [u8]),
}

// A value, and one that was read behind it.
fn joined<A: Drop, B: Drop>(first: A, second: Result<B>) -> Result<(A, B)>
    ensures { result ≡ joined first second }
{
    match second {
        Ok(second) => Ok((first, second)),
        Err(fault) => Err(fault),
    }
}

// Whether the table of this number has 64-bit addresses.
#[tactic(auto, using(crate::specs::Segments::table_there, crate::specs::Segments::table_missing))]
fn is_table_wide(sections: &Sections<'_>, index: u32) -> bool
    ensures { result ≡ table_is_wide (state_of sections.now) index }
{
    let index = index as usize;
    if index >= sections.tables.len() {
        return false;
    }
    sections.tables[index].ty.limits.is_wide()
}

fn table_count(sections: &Sections<'_>) -> usize
    ensures { result ≡ length (state_of sections.now).filled.tables }
{
    sections.tables.len()
}

// Whether the memory of this number has 64-bit addresses.
#[tactic(auto, using(crate::specs::Segments::memory_there, crate::specs::Segments::memory_missing))]
fn is_memory_wide(sections: &Sections<'_>, index: u32) -> bool
    ensures { result ≡ memory_is_wide (state_of sections.now) index }
{
    let index = index as usize;
    if index >= sections.memories.len() {
        return false;
    }
    sections.memories[index].ty.limits.is_wide()
}

fn memory_count(sections: &Sections<'_>) -> usize
    ensures { result ≡ length (state_of sections.now).filled.memories }
{
    sections.memories.len()
}

fn has_element_room(sections: &Sections<'_>) -> bool
    ensures { result ≡ has_room (state_of sections.now) spaces.Element }
{
    sections.elements.len() < MAX_WASM_ELEMENT_SEGMENTS
}

fn has_data_room(sections: &Sections<'_>) -> bool
    ensures { result ≡ has_room (state_of sections.now) spaces.Data }
{
    sections.segments.len() < MAX_WASM_DATA_SEGMENTS
}

// An offset in the table of this number.
fn read_into_table(
    alloc: Alloc,
    index: u32,
    sections: &Sections<'_>,
    reader: &mut BinaryReader<'_>,
) -> Result<Vec<Operator>>
    ensures { Parses (into_table reader.old.window.features (state_of sections.now) index).parse expr_of reader.old reader.new result }
{
    read_place(alloc, is_table_wide(sections, index), sections, reader)
}

// An offset in the memory of this number.
fn read_into_memory(
    alloc: Alloc,
    index: u32,
    sections: &Sections<'_>,
    reader: &mut BinaryReader<'_>,
) -> Result<Vec<Operator>>
    ensures { Parses (into_memory reader.old.window.features (state_of sections.now) index).parse expr_of reader.old reader.new result }
{
    read_place(alloc, is_memory_wide(sections, index), sections, reader)
}

// The index of a table.
fn read_table_index(sections: &Sections<'_>, reader: &mut BinaryReader<'_>) -> Result<u32>
    ensures { ParsesExactly (index spaces.Table (length (state_of sections.now).filled.tables)).parse plain reader.old reader.new result }
{
    read_index(Space::Table, table_count(sections), reader)
}

// The index of a memory.
fn read_memory_index(sections: &Sections<'_>, reader: &mut BinaryReader<'_>) -> Result<u32>
    ensures { ParsesExactly (index spaces.Memory (length (state_of sections.now).filled.memories)).parse plain reader.old reader.new result }
{
    read_index(Space::Memory, memory_count(sections), reader)
}

// 00 for functions, and a vec of them.
fn read_kind_of_functions(
    alloc: Alloc,
    sections: &Sections<'_>,
    reader: &mut BinaryReader<'_>,
) -> Result<Vec<u32>>
    ensures { Parses (kind_of_functions (state_of sections.now)).parse kind_of_functions_of reader.old reader.new result }
{
    read_zero(reader)?;
    read_functions(alloc, sections, reader)
}

// A vec of bytes.
#[tactic(auto, unfolding(wasm_reader::specs::Text::sized_bytes_at))]
fn read_contents<'a>(reader: &mut BinaryReader<'a>) -> Result<&'a [u8]>
    ensures { ParsesExactly contents.parse seen_bytes reader.old reader.new result }
{
    let size = reader.read_var_u32()? as usize;
    Ok(reader.read_bytes(size)?)
}

// The type of what expressions give.
fn read_item_type(
    alloc: Alloc,
    sections: &Sections<'_>,
    reader: &mut BinaryReader<'_>,
) -> Result<RefRecord>
    ensures { ParsesExactly (ref_type reader.old.window.features (type_count (state_of sections.now))).parse ref_of reader.old reader.new result }
{
    read_ref_type(alloc, sections.types.len(), reader)
}

// The type of expressions, and a vec of them.
fn read_typed(
    alloc: Alloc,
    sections: &Sections<'_>,
    reader: &mut BinaryReader<'_>,
) -> Result<(RefRecord, Vec<Vec<Operator>>)>
    ensures { Parses (after (ref_type reader.old.window.features (type_count (state_of sections.now))) (λ _. expressions reader.old.window.features (state_of sections.now))).parse (both_of ref_of exprs_of) reader.old reader.new result }
{
    let first = read_item_type(alloc, sections, reader)?;
    let second = read_expressions(alloc, sections, reader);
    joined(first, second)
}

// An offset in table 0, and a vec of functions.
fn read_active_functions(
    alloc: Alloc,
    sections: &Sections<'_>,
    reader: &mut BinaryReader<'_>,
) -> Result<(Vec<Operator>, Vec<u32>)>
    ensures { Parses (after (into_table reader.old.window.features (state_of sections.now) 0) (λ _. functions (state_of sections.now))).parse (both_of expr_of numbers_of) reader.old reader.new result }
{
    let first = read_into_table(alloc, 0, sections, reader)?;
    let second = read_functions(alloc, sections, reader);
    joined(first, second)
}

// An offset in table 0, and a vec of expressions.
fn read_active_expressions(
    alloc: Alloc,
    sections: &Sections<'_>,
    reader: &mut BinaryReader<'_>,
) -> Result<(Vec<Operator>, Vec<Vec<Operator>>)>
    ensures { Parses (after (into_table reader.old.window.features (state_of sections.now) 0) (λ _. expressions reader.old.window.features (state_of sections.now))).parse (both_of expr_of exprs_of) reader.old reader.new result }
{
    let first = read_into_table(alloc, 0, sections, reader)?;
    let second = read_expressions(alloc, sections, reader);
    joined(first, second)
}

// A table, and an offset in it.
fn read_named_table(
    alloc: Alloc,
    sections: &Sections<'_>,
    reader: &mut BinaryReader<'_>,
) -> Result<(u32, Vec<Operator>)>
    ensures { Parses (after (index spaces.Table (length (state_of sections.now).filled.tables)) (λ n. into_table reader.old.window.features (state_of sections.now) n)).parse (both_of plain expr_of) reader.old reader.new result }
{
    let first = read_table_index(sections, reader)?;
    let second = read_into_table(alloc, first, sections, reader);
    joined(first, second)
}

// A table, an offset in it, and functions.
fn read_functions_into(
    alloc: Alloc,
    sections: &Sections<'_>,
    reader: &mut BinaryReader<'_>,
) -> Result<((u32, Vec<Operator>), Vec<u32>)>
    ensures { Parses (after (named_table reader.old.window.features (state_of sections.now)) (λ _. kind_of_functions (state_of sections.now))).parse (both_of (both_of plain expr_of) kind_of_functions_of) reader.old reader.new result }
{
    let first = read_named_table(alloc, sections, reader)?;
    let second = read_kind_of_functions(alloc, sections, reader);
    joined(first, second)
}

// A table, an offset in it, and expressions of a type.
fn read_expressions_into(
    alloc: Alloc,
    sections: &Sections<'_>,
    reader: &mut BinaryReader<'_>,
) -> Result<((u32, Vec<Operator>), (RefRecord, Vec<Vec<Operator>>))>
    ensures { Parses (after (named_table reader.old.window.features (state_of sections.now)) (λ _. typed reader.old.window.features (state_of sections.now))).parse (both_of (both_of plain expr_of) (both_of ref_of exprs_of)) reader.old reader.new result }
{
    let first = read_named_table(alloc, sections, reader)?;
    let second = read_typed(alloc, sections, reader);
    joined(first, second)
}

// A memory, and an offset in it.
fn read_named_memory(
    alloc: Alloc,
    sections: &Sections<'_>,
    reader: &mut BinaryReader<'_>,
) -> Result<(u32, Vec<Operator>)>
    ensures { Parses (after (index spaces.Memory (length (state_of sections.now).filled.memories)) (λ n. into_memory reader.old.window.features (state_of sections.now) n)).parse (both_of plain expr_of) reader.old reader.new result }
{
    let first = read_memory_index(sections, reader)?;
    let second = read_into_memory(alloc, first, sections, reader);
    joined(first, second)
}

// An offset in memory 0, and bytes.
fn read_active_data<'a>(
    alloc: Alloc,
    sections: &Sections<'_>,
    reader: &mut BinaryReader<'a>,
) -> Result<(Vec<Operator>, &'a [u8])>
    ensures { Parses (after (into_memory reader.old.window.features (state_of sections.now) 0) (λ _. contents)).parse (both_of expr_of seen_bytes) reader.old reader.new result }
{
    let first = read_into_memory(alloc, 0, sections, reader)?;
    let second = read_contents(reader);
    joined(first, second)
}

// A memory, an offset in it, and bytes.
fn read_data_into<'a>(
    alloc: Alloc,
    sections: &Sections<'_>,
    reader: &mut BinaryReader<'a>,
) -> Result<((u32, Vec<Operator>), &'a [u8])>
    ensures { Parses (after (named_memory reader.old.window.features (state_of sections.now)) (λ _. contents)).parse (both_of (both_of plain expr_of) seen_bytes) reader.old reader.new result }
{
    let first = read_named_memory(alloc, sections, reader)?;
    let second = read_contents(reader);
    joined(first, second)
}

// The flags of an element segment: 0 to 7; 0 and 4 mean table 0, which has to be there.
fn read_element_flags(sections: &Sections<'_>, reader: &mut BinaryReader<'_>) -> Result<u32>
    ensures { ParsesExactly (element_flags (state_of sections.now)).parse plain reader.old reader.new result }
{
    let offset = reader.original_position();
    let flags = read_u32(reader)?;
    if flags >= 8 {
        let kind = FaultKind::Read(ErrorKind::BadByte);
        return Err(Fault::new(kind, offset));
    }
    if (flags == 0 || flags == 4) && table_count(sections) == 0 {
        return Err(Fault::new(FaultKind::Index(Space::Table), offset));
    }
    Ok(flags)
}

// The flags of a data segment: 0 to 2; 0 means memory 0, which has to be there.
fn read_data_flags(sections: &Sections<'_>, reader: &mut BinaryReader<'_>) -> Result<u32>
    ensures { ParsesExactly (data_flags (state_of sections.now)).parse plain reader.old reader.new result }
{
    let offset = reader.original_position();
    let flags = read_u32(reader)?;
    if flags >= 3 {
        let kind = FaultKind::Read(ErrorKind::BadByte);
        return Err(Fault::new(kind, offset));
    }
    if flags == 0 && memory_count(sections) == 0 {
        return Err(Fault::new(FaultKind::Index(Space::Memory), offset));
    }
    Ok(flags)
}

// What stands behind the flags of a data segment.
fn read_data_form<'a>(
    alloc: Alloc,
    flags: u32,
    sections: &Sections<'_>,
    reader: &mut BinaryReader<'a>,
) -> Result<DataForm<'a>>
    ensures { Parses (data_form reader.old.window.features (state_of sections.now) flags).parse data_form_of reader.old reader.new result }
{
    match flags {
        0 => {
            let (place, bytes) = read_active_data(alloc, sections, reader)?;
            Ok(DataForm::Active(place, bytes))
        }
        1 => Ok(DataForm::Passive(read_contents(reader)?)),
        2 => {
            let (place, bytes) = read_data_into(alloc, sections, reader)?;
            Ok(DataForm::Into(place, bytes))
        }
        _ => {
            let kind = FaultKind::Read(ErrorKind::BadByte);
            Err(Fault::new(kind, reader.original_position()))
        }
    }
}

// A data segment: its flags, and its form.
fn read_own_data<'a>(
    alloc: Alloc,
    sections: &Sections<'_>,
    reader: &mut BinaryReader<'a>,
) -> Result<(u32, DataForm<'a>)>
    ensures { Parses (after (data_flags (state_of sections.now)) (λ flags. data_form reader.old.window.features (state_of sections.now) flags)).parse (both_of plain data_form_of) reader.old reader.new result }
{
    let first = read_data_flags(sections, reader)?;
    let second = read_data_form(alloc, first, sections, reader);
    joined(first, second)
}

// A data segment, where there is room for one more.
fn read_data<'a>(
    alloc: Alloc,
    sections: &Sections<'_>,
    reader: &mut BinaryReader<'a>,
) -> Result<(u32, DataForm<'a>)>
    ensures { Parses (data_entry reader.old.window.features (state_of sections.now)).parse (both_of plain data_form_of) reader.old reader.new result }
{
    let offset = reader.original_position();
    let room = has_data_room(sections);
    let read = read_own_data(alloc, sections, reader);
    in_room(room, Limited::Data, offset, read)
}

// The segment that a form spells.
fn data_of(form: DataForm<'_>) -> Data<'_>
    ensures { data_of result ≡ segment_of (data_form_of form.entry) }
{
    match form {
        DataForm::Active(place, bytes) => Data {
            mode: Mode::Active(0, place),
            bytes,
        },
        DataForm::Passive(bytes) => Data {
            mode: Mode::Passive,
            bytes,
        },
        DataForm::Into(into, bytes) => {
            let (memory, place) = into;
            Data {
                mode: Mode::Active(memory, place),
                bytes,
            }
        }
    }
}

fn add_data<'a>(
    sections: &mut Sections<'a>,
    entry: (u32, DataForm<'a>),
) -> std::result::Result<(), AllocError>
    ensures { OnOk result (state_of sections.new ≡ add_data (state_of sections.old) (both_of plain data_form_of entry.entry)) }
{
    sections.segments.push(data_of(entry.1))?;
    Ok(())
}

/// Data segments.
pub struct Segments;

impl<'a> Entry<'a> for Segments {
    type Value = (u32, DataForm<'a>);

    ghost use Rattle.wasm_reader.specs.Reading.{plain};
    ghost use Rattle.walrus_entry_readers.specs.walrus_known_sections.wasm_sections.Segments as grammar;
    ghost use Rattle.walrus_segment_readers.specs.Segments.{both_of, data_form_of};

    ghost Seen = { grammar.DataEntry };

    ghost seen = { both_of plain data_form_of };

    ghost parse = { λ features s. (grammar.data_entry features s).parse };

    ghost put = { grammar.add_data };

    fn read(
        alloc: Alloc,
        sections: &Sections<'a>,
        reader: &mut BinaryReader<'a>,
    ) -> Result<Self::Value> {
        read_data(alloc, sections, reader)
    }

    fn add(sections: &mut Sections<'a>, value: Self::Value) -> std::result::Result<(), AllocError> {
        add_data(sections, value)
    }
}

// What stands behind the flags of a segment of functions.
fn read_element_form(
    alloc: Alloc,
    flags: u32,
    sections: &Sections<'_>,
    reader: &mut BinaryReader<'_>,
) -> Result<ElementForm>
    ensures { Parses (element_form reader.old.window.features (state_of sections.now) flags).parse element_form_of reader.old reader.new result }
{
    match flags {
        0 => {
            let (place, items) = read_active_functions(alloc, sections, reader)?;
            Ok(ElementForm::ActiveFunctions(place, items))
        }
        1 => {
            let items = read_kind_of_functions(alloc, sections, reader)?;
            Ok(ElementForm::PassiveFunctions(items))
        }
        2 => {
            let (place, items) = read_functions_into(alloc, sections, reader)?;
            Ok(ElementForm::FunctionsInto(place, items))
        }
        3 => {
            let items = read_kind_of_functions(alloc, sections, reader)?;
            Ok(ElementForm::DeclaredFunctions(items))
        }
        4 => {
            let (place, items) = read_active_expressions(alloc, sections, reader)?;
            Ok(ElementForm::ActiveExpressions(place, items))
        }
        5 => {
            let (ty, items) = read_typed(alloc, sections, reader)?;
            Ok(ElementForm::PassiveExpressions(ty, items))
        }
        6 => {
            let (place, items) = read_expressions_into(alloc, sections, reader)?;
            Ok(ElementForm::ExpressionsInto(place, items))
        }
        7 => {
            let (ty, items) = read_typed(alloc, sections, reader)?;
            Ok(ElementForm::DeclaredExpressions(ty, items))
        }
        _ => {
            let kind = FaultKind::Read(ErrorKind::BadByte);
            Err(Fault::new(kind, reader.original_position()))
        }
    }
}

// An element segment: its flags, and its form.
fn read_own_element(
    alloc: Alloc,
    sections: &Sections<'_>,
    reader: &mut BinaryReader<'_>,
) -> Result<(u32, ElementForm)>
    ensures { Parses (after (element_flags (state_of sections.now)) (λ flags. element_form reader.old.window.features (state_of sections.now) flags)).parse (both_of plain element_form_of) reader.old reader.new result }
{
    let first = read_element_flags(sections, reader)?;
    let second = read_element_form(alloc, first, sections, reader);
    joined(first, second)
}

// An element segment, where there is room for one more.
fn read_element(
    alloc: Alloc,
    sections: &Sections<'_>,
    reader: &mut BinaryReader<'_>,
) -> Result<(u32, ElementForm)>
    ensures { Parses (element_entry reader.old.window.features (state_of sections.now)).parse (both_of plain element_form_of) reader.old reader.new result }
{
    let offset = reader.original_position();
    let room = has_element_room(sections);
    let read = read_own_element(alloc, sections, reader);
    in_room(room, Limited::Elements, offset, read)
}

// The segment that a form spells: flag 4 means references to functions.
fn element_of(form: ElementForm) -> Element
    ensures { element_of result ≡ grammar_element_of (element_form_of form) }
{
    match form {
        ElementForm::ActiveFunctions(place, items) => Element {
            mode: Mode::Active(0, place),
            items: ElementItems::Functions(items),
        },
        ElementForm::PassiveFunctions(items) => Element {
            mode: Mode::Passive,
            items: ElementItems::Functions(items),
        },
        ElementForm::FunctionsInto(into, items) => {
            let (table, place) = into;
            Element {
                mode: Mode::Active(table, place),
                items: ElementItems::Functions(items),
            }
        }
        ElementForm::DeclaredFunctions(items) => Element {
            mode: Mode::Declared,
            items: ElementItems::Functions(items),
        },
        ElementForm::ActiveExpressions(place, items) => Element {
            mode: Mode::Active(0, place),
            items: ElementItems::Expressions(
                RefRecord {
                    nullable: true,
                    heap_type: HeapRecord::Abstract(AbstractHeapType::Func),
                },
                items,
            ),
        },
        ElementForm::PassiveExpressions(ty, items) => Element {
            mode: Mode::Passive,
            items: ElementItems::Expressions(ty, items),
        },
        ElementForm::ExpressionsInto(into, typed) => {
            let (table, place) = into;
            let (ty, items) = typed;
            Element {
                mode: Mode::Active(table, place),
                items: ElementItems::Expressions(ty, items),
            }
        }
        ElementForm::DeclaredExpressions(ty, items) => Element {
            mode: Mode::Declared,
            items: ElementItems::Expressions(ty, items),
        },
    }
}

fn add_element(
    sections: &mut Sections<'_>,
    entry: (u32, ElementForm),
) -> std::result::Result<(), AllocError>
    ensures { OnOk result (state_of sections.new ≡ add_element (state_of sections.old) (both_of plain element_form_of entry)) }
{
    sections.elements.push(element_of(entry.1))?;
    Ok(())
}

/// Element segments.
pub struct Elements;

impl<'a> Entry<'a> for Elements {
    type Value = (u32, ElementForm);

    ghost use Rattle.wasm_reader.specs.Reading.{plain};
    ghost use Rattle.walrus_entry_readers.specs.walrus_known_sections.wasm_sections.Segments as grammar;
    ghost use Rattle.walrus_segment_readers.specs.Segments.{both_of, element_form_of};

    ghost Seen = { grammar.ElementEntry };

    ghost seen = { both_of plain element_form_of };

    ghost parse = { λ features s. (grammar.element_entry features s).parse };

    ghost put = { grammar.add_element };

    fn read(
        alloc: Alloc,
        sections: &Sections<'a>,
        reader: &mut BinaryReader<'a>,
    ) -> Result<Self::Value> {
        read_element(alloc, sections, reader)
    }

    fn add(sections: &mut Sections<'a>, value: Self::Value) -> std::result::Result<(), AllocError> {
        add_element(sections, value)
    }
}
