//! Accesses to memory are read (Core Specification, binary format: memory instructions).

ghost use Rattle.std.specs.Prelude.{◌≡◌};
ghost use Rattle.wasm_composite_types.specs.wasm_reader.Reading.{Reads, plain};
ghost use Rattle.wasm_operators.specs.Readings.{access_at, memory_at, has_memory};

use crate::memory_access::MemoryAccess;
use wasm_composite_types::reader::{BinaryReader, Result};

// Whether the flags of an access say that the index of a memory follows. (A function of its own, so that its wrong body breaks one goal.)
#[inline]
fn has_memory_index(flags: u32) -> bool
    ensures { result ≡ has_memory flags }
{
    flags / 64 % 2 == 1
}

/// Where an operator accesses memory: nothing is tested of it. (It stands here, and not beside the struct, so that its wrong body is tried
/// over one proof with those of the table.)
#[inline(always)]
#[tactic(auto, unfolding(crate::specs::Readings::access_at, crate::specs::Readings::memory_at))]
pub fn read_access(reader: &mut BinaryReader<'_>) -> Result<MemoryAccess>
    ensures { Reads access_at plain reader.old reader.new result }
{
    let flags = got!(reader.read_var_u32());
    let (align, memory) = if has_memory_index(flags) {
        (flags - 64, got!(reader.read_var_u32()))
    } else {
        (flags, 0)
    };
    let offset = got!(reader.read_var_u64());
    Ok(MemoryAccess {
        align,
        memory,
        offset,
    })
}
