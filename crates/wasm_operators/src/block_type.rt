//! Block types (Core Specification, binary format: control instructions).

ghost use Rattle.wasm_composite_types.specs.wasm_reader.Reading.{Reads, plain};
ghost use Rattle.wasm_operators.specs.Readings.{block_at, empty_at, type_index_at};

use std::alloc::Global;
use wasm_composite_types::reader::{BinaryReader, Error, ErrorKind, FromReader, Result};
use wasm_composite_types::ref_types::ValType;

/// What a block takes and leaves.
#[derive(Clone, Copy, PartialEq, Eq)]
pub enum BlockType {
    /// It takes and leaves nothing.
    Empty,
    /// It takes nothing and leaves one value of this type.
    Value(ValType),
    /// It takes the parameters and leaves the results of the function type of this number.
    Type(u32),
}

impl BlockType {
    #[tactic(auto, unfolding(crate::specs::Readings::type_index_at))]
    fn read_index(reader: &mut BinaryReader<'_>) -> Result<BlockType>
        ensures { Reads type_index_at plain reader.old reader.new result }
    {
        let offset = reader.original_position();
        let index = got!(reader.read_var_s33());
        if index < 0 || index >= 1 << 32 {
            return Err(Error::new(ErrorKind::BadByte, offset));
        }
        Ok(BlockType::Type(index as u32))
    }

    #[tactic(auto, unfolding(crate::specs::Readings::empty_at))]
    fn read_empty(reader: &mut BinaryReader<'_>) -> Result<BlockType>
        ensures { Reads empty_at plain reader.old reader.new result }
    {
        got!(reader.read_u8());
        Ok(BlockType::Empty)
    }
}

impl<'a> FromReader<'a> for BlockType {
    ghost use Rattle.std.specs.Prelude.{false};
    ghost use Rattle.wasm_operators.specs.declared.block_type.BlockType.{BlockType};
    ghost use Rattle.wasm_operators.specs.Readings.{block_at};
    ghost use Rattle.wasm_operators.specs.ItemFinals.{block_final};

    ghost Seen = { BlockType };

    ghost seen = { λ ty. ty };

    ghost reading = { block_at };

    ghost takes_memory = { false };

    #[inline]
    #[tactic(auto, unfolding(crate::specs::Readings::block_at))]
    fn from_reader(alloc: Global, reader: &mut BinaryReader<'a>) -> Result<Self> {
        let byte = got!(reader.peek());
        if byte == 0x40 {
            return BlockType::read_empty(reader);
        }
        if 0x40 < byte && byte < 0x80 {
            let ty = got!(ValType::from_reader(alloc, reader));
            return Ok(BlockType::Value(ty));
        }
        BlockType::read_index(reader)
    }

    ghost is_final = { block_final };
}
