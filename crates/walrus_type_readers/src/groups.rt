//! Groups of types (Core Specification, binary format: recursive types).

ghost use Rattle.std.specs.Prelude.{◌≡◌, ◌<◌, ◌≤◌, All, IfOk, IfSome, None, OnOk, ◌+◌, ◌^◌, length};
ghost use Rattle.wasm_reader.specs.Cursor.{end_of};
ghost use Rattle.wasm_types.specs.Placed.{placed};
ghost use Rattle.walrus_forms.specs.Records.{type_group};
ghost use Rattle.walrus_section_reader.specs.Parses.{Parses};
ghost use Rattle.walrus_known_sections.specs.State.{state_of};
ghost use Rattle.walrus_type_readers.specs.Groups.{TellsGroup, TellsMember, TellsMembers, parse_group, parse_placed};

use crate::names::has_name_from;
use crate::records::type_record;
use std::alloc::{AllocError, Global as Alloc};
use walrus_forms::{GroupRecord, TypeRecord};
use walrus_known_sections::{Entry, Sections};
use walrus_section_reader::{Fault, FaultKind, Form, Limited, Result, Space};
use wasm_reader::limits::MAX_WASM_TYPES;
use wasm_reader::{BinaryReader, ErrorKind, FromReader};
use wasm_types::{IntoTypesAndOffsets, RecGroup, SubType};

// A group as it stands.
fn read_placed(alloc: Alloc, reader: &mut BinaryReader<'_>) -> Result<RecGroup>
    ensures parses { Parses (parse_placed reader.old.window.features) (placed (end_of reader.old)) reader.old reader.new result }
    ensures within { IfOk result (λ group. All (λ offset. offset ≤ end_of reader.old) group.offsets) }
    ensures paired { IfOk result (λ group. length group.offsets ≡ length group.types) }
{
    let group = RecGroup::from_reader(alloc, reader)?;
    Ok(group)
}

// The record of a member that has this number and stands at this offset. It names types below `end`, isn't shared, and there is
// room for it.
fn member_record(
    alloc: Alloc,
    end: usize,
    number: usize,
    offset: u64,
    ty: &SubType,
) -> Result<TypeRecord>
    ensures tells { TellsMember end number offset ty.now result }
    ensures room { OnOk result (number < 1000000) }
{
    if has_name_from(end, ty) {
        return Err(Fault::new(FaultKind::Index(Space::Type), offset));
    }
    let Some(record) = type_record(alloc, ty)? else {
        let kind = FaultKind::Unsupported(Form::SharedType);
        return Err(Fault::new(kind, offset));
    };
    if number >= MAX_WASM_TYPES {
        return Err(Fault::new(FaultKind::Limit(Limited::Types), offset));
    }
    Ok(record)
}

// The same of a member with its offset, which is let go.
fn own_record(alloc: Alloc, end: usize, number: usize, member: (u64, SubType)) -> Result<TypeRecord>
    ensures tells { TellsMember end number member.0 member.1 result }
    ensures room { OnOk result (number < 1000000) }
{
    member_record(alloc, end, number, member.0, &member.1)
}

// The records of members, of which the first has this number.
fn member_records(
    alloc: Alloc,
    end: usize,
    first: usize,
    members: IntoTypesAndOffsets,
) -> Result<Vec<TypeRecord>>
    ensures { TellsMembers end first members result }
{
    let mut records = Vec::with_capacity(alloc, members.len())?;
    let mut number = first;
    for member in members {
        let record = own_record(alloc, end, number, member)?;
        records.push(record)?;
        number += 1;
    }
    Ok(records)
}

// The number behind the last type of a group, where so many types stand before it.
fn group_end(types: usize, members: &IntoTypesAndOffsets) -> Option<usize>
    ensures end { IfSome result (λ end. end ≡ types + length members.now) }
    ensures none { result ≡ None → 2 ^ 64 ≤ types + length members.now }
{
    types.checked_add(members.len())
}

// The record of a group, where so many types stand before it.
fn group_record(alloc: Alloc, types: usize, group: RecGroup) -> Result<GroupRecord>
    requires { length group.offsets ≡ length group.types }
    ensures { TellsGroup types group result }
{
    let marked = group.is_explicit_rec_group();
    let members = group.into_types_and_offsets();
    let Some(end) = group_end(types, &members) else {
        return Err(Fault::new(FaultKind::Read(ErrorKind::Memory), 0));
    };
    let types = member_records(alloc, end, types, members)?;
    Ok(GroupRecord { marked, types })
}

// A group of types: all of it, and then member by member what each is refused for.
fn read_group(
    alloc: Alloc,
    sections: &Sections<'_>,
    reader: &mut BinaryReader<'_>,
) -> Result<GroupRecord>
    ensures { Parses (parse_group reader.old.window.features (state_of sections.now)) type_group reader.old reader.new result }
{
    let group = read_placed(alloc, reader)?;
    group_record(alloc, sections.types.len(), group)
}

/// Groups of types.
pub struct Types;

impl<'a> Entry<'a> for Types {
    type Value = GroupRecord;

    ghost use Rattle.walrus_forms.specs.Records.{TypeGroup, type_group};
    ghost use Rattle.walrus_type_readers.specs.Groups.{parse_group, put_group};

    ghost Seen = { TypeGroup };

    ghost seen = { type_group };

    ghost parse = { parse_group };

    ghost put = { put_group };

    fn read(
        alloc: Alloc,
        sections: &Sections<'a>,
        reader: &mut BinaryReader<'a>,
    ) -> Result<Self::Value> {
        read_group(alloc, sections, reader)
    }

    fn add(sections: &mut Sections<'a>, value: Self::Value) -> std::result::Result<(), AllocError> {
        sections.types.push(value)
    }
}
