//! Subtypes and recursion groups, read from the binary format (Core Specification, binary format, types).

ghost use Rattle.std.specs.Prelude.{◌≡◌, ◌-◌, ◌≤◌, true, IfOk, length, All};
ghost use Rattle.wasm_reader.specs.Cursor.{end_of};
ghost use Rattle.wasm_reader.specs.Reading.{Reads, plain};
ghost use Rattle.wasm_reader.specs.Items.{ReadsUnlessMemory, items_at};
ghost use Rattle.wasm_types.specs.Placed.{placed_sub_at, placed_member, placed_members, placed_after, placed_at, placed};
ghost use Rattle.wasm_types.specs.Readings.{index_at, supertype_at, declared_at, sub_after};

use crate::group::RecGroup;
use crate::subtype::SubType;
use std::alloc::Global;
use wasm_composite_types::read::{expect_gc, read_composite_after};
use wasm_composite_types::ref_types::PackedIndex;
use wasm_reader::limits::{MAX_WASM_GROUP_TYPES, MAX_WASM_SUPERTYPES};
use wasm_reader::{BinaryReader, Error, ErrorKind, FromReader, Result};

// An index of a type. One of 2^20 or more is `Limit` at its first byte.
#[tactic(auto, unfolding(crate::specs::Readings::index_at))]
fn read_index(reader: &mut BinaryReader<'_>) -> Result<PackedIndex>
    ensures { Reads index_at plain reader.old reader.new result }
{
    let offset = reader.original_position();
    let index = reader.read_var_u32()?;
    match PackedIndex::from_module_index(index) {
        Some(index) => Ok(index),
        None => Err(Error::new(ErrorKind::Limit, offset)),
    }
}

#[tactic(auto, unfolding(crate::specs::Readings::supertype_at))]
fn read_supertype(reader: &mut BinaryReader<'_>) -> Result<Option<PackedIndex>>
    ensures { Reads supertype_at plain reader.old reader.new result }
{
    if reader.read_size(MAX_WASM_SUPERTYPES)? == 0 {
        return Ok(None);
    }
    Ok(Some(read_index(reader)?))
}

impl SubType {
    #[tactic(auto, unfolding(crate::specs::Readings::declared_at))]
    fn read_declared(alloc: Global, reader: &mut BinaryReader<'_>, is_final: bool) -> Result<Self>
        ensures { ReadsUnlessMemory (declared_at reader.old.window.features is_final) plain reader.old reader.new result }
    {
        let supertype_idx = read_supertype(reader)?;
        let composite_type = reader.read(alloc)?;
        Ok(SubType {
            is_final,
            supertype_idx,
            composite_type,
        })
    }

    // The subtype that begins with this byte, which stands at this offset.
    #[inline(always)]
    #[tactic(auto, unfolding(crate::specs::Readings::sub_after))]
    fn read_after(
        alloc: Global,
        reader: &mut BinaryReader<'_>,
        byte: u8,
        offset: u64,
    ) -> Result<Self>
        requires { offset ≤ end_of reader.old }
        ensures { ReadsUnlessMemory (sub_after reader.old.window.features byte (end_of reader.old - offset)) plain reader.old reader.new result }
    {
        match byte {
            0x50 => {
                expect_gc(reader, offset)?;
                SubType::read_declared(alloc, reader, false)
            }
            0x4f => {
                expect_gc(reader, offset)?;
                SubType::read_declared(alloc, reader, true)
            }
            _ => {
                let composite_type = read_composite_after(alloc, reader, byte, offset)?;
                Ok(SubType {
                    is_final: true,
                    supertype_idx: None,
                    composite_type,
                })
            }
        }
    }
}

impl<'a> FromReader<'a> for SubType {
    ghost use Rattle.wasm_types.specs.declared.subtype.SubType.{SubType};
    ghost use Rattle.wasm_types.specs.Readings.{sub_at};
    ghost use Rattle.wasm_types.specs.Finals.{sub_final};

    ghost Seen = { SubType };

    ghost seen = { λ ty. ty };

    ghost reading = { sub_at };

    ghost takes_memory = { true };

    #[tactic(auto, unfolding(crate::specs::Readings::sub_at))]
    fn from_reader(alloc: Global, reader: &mut BinaryReader<'a>) -> Result<Self> {
        let offset = reader.original_position();
        let byte = reader.read_u8()?;
        SubType::read_after(alloc, reader, byte, offset)
    }

    ghost is_final = { sub_final };
}

impl RecGroup {
    // A type, and its offset.
    #[tactic(auto, unfolding(crate::specs::Placed::placed_sub_at))]
    fn read_member(alloc: Global, reader: &mut BinaryReader<'_>) -> Result<(u64, SubType)>
        ensures reads { ReadsUnlessMemory (placed_sub_at reader.old.window.features) (placed_member (end_of reader.old)) reader.old reader.new result }
        ensures within { IfOk result (λ member. member.0 ≤ end_of reader.old) }
    {
        let offset = reader.original_position();
        let ty = reader.read(alloc)?;
        Ok((offset, ty))
    }

    fn read_members(alloc: Global, reader: &mut BinaryReader<'_>, count: usize) -> Result<Self>
        ensures reads { ReadsUnlessMemory (items_at (placed_sub_at reader.old.window.features) count) (placed_members (end_of reader.old)) reader.old reader.new result }
        ensures explicit { IfOk result (λ group. group.explicit ≡ true) }
        ensures within { IfOk result (λ group. All (λ offset. offset ≤ end_of reader.old) group.offsets) }
        ensures paired { IfOk result (λ group. length group.offsets ≡ length group.types) }
    {
        let mut offsets = Vec::new(alloc);
        let mut types = Vec::new(alloc);
        for _ in 0..count {
            let (offset, ty) = RecGroup::read_member(alloc, reader)?;
            if offsets.push(offset).is_err() {
                return Err(reader.out_of_memory());
            }
            if types.push(ty).is_err() {
                return Err(reader.out_of_memory());
            }
        }
        Ok(RecGroup::explicit(offsets, types))
    }

    // The group that begins with this byte, which stands at this offset.
    #[tactic(auto, unfolding(crate::specs::Placed::placed_after, wasm_reader::specs::Items::vec_at))]
    fn read_after(
        alloc: Global,
        reader: &mut BinaryReader<'_>,
        byte: u8,
        offset: u64,
    ) -> Result<Self>
        requires { offset ≤ end_of reader.old }
        ensures reads { ReadsUnlessMemory (placed_after reader.old.window.features byte (end_of reader.old - offset)) (placed (end_of reader.old)) reader.old reader.new result }
        ensures within { IfOk result (λ group. All (λ offset. offset ≤ end_of reader.old) group.offsets) }
        ensures paired { IfOk result (λ group. length group.offsets ≡ length group.types) }
    {
        if byte == 0x4e {
            expect_gc(reader, offset)?;
            let count = reader.read_size(MAX_WASM_GROUP_TYPES)?;
            return RecGroup::read_members(alloc, reader, count);
        }
        let ty = SubType::read_after(alloc, reader, byte, offset)?;
        Ok(RecGroup::implicit(offset, ty))
    }
}

impl RecGroup {
    // A group, with the places of its types.
    #[tactic(auto, unfolding(crate::specs::Placed::placed_at))]
    fn read_placed(alloc: Global, reader: &mut BinaryReader<'_>) -> Result<Self>
        ensures reads { ReadsUnlessMemory (placed_at reader.old.window.features) (placed (end_of reader.old)) reader.old reader.new result }
        ensures within { IfOk result (λ group. All (λ offset. offset ≤ end_of reader.old) group.offsets) }
        ensures paired { IfOk result (λ group. length group.offsets ≡ length group.types) }
    {
        let offset = reader.original_position();
        let byte = reader.read_u8()?;
        RecGroup::read_after(alloc, reader, byte, offset)
    }
}

impl<'a> FromReader<'a> for RecGroup {
    ghost use Rattle.wasm_types.specs.Readings.{Listed, group_at};
    ghost use Rattle.wasm_types.specs.Finals.{group_final};
    ghost use Rattle.wasm_types.specs.Placed.{listed};

    ghost Seen = { Listed };

    ghost seen = { listed };

    ghost reading = { group_at };

    ghost takes_memory = { true };

    /// Reads a group. The offset of each type is that of its first byte.
    fn from_reader(alloc: Global, reader: &mut BinaryReader<'a>) -> Result<Self>
        ensures reads { ReadsUnlessMemory (group_at reader.old.window.features) listed reader.old reader.new result }
        ensures places { ReadsUnlessMemory (placed_at reader.old.window.features) (placed (end_of reader.old)) reader.old reader.new result }
        ensures within { IfOk result (λ group. All (λ offset. offset ≤ end_of reader.old) group.offsets) }
        ensures paired { IfOk result (λ group. length group.offsets ≡ length group.types) }
    {
        RecGroup::read_placed(alloc, reader)
    }

    ghost is_final = { group_final };
}
