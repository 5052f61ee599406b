//! Bodies as so many bytes.

ghost use Rattle.std.specs.Prelude.{◌≡◌, ◌+◌, ◌-◌, ◌≤◌, IfOk, map};
ghost use Rattle.wasm_reader.specs.Cursor.{IsWithin};
ghost use Rattle.wasm_reader.specs.Reading.{plain};
ghost use Rattle.wasm_formats.specs.Joined.{ends_at};
ghost use Rattle.walrus_known_sections.specs.wasm_sections.Sections.{behind_chunk, body_size, chunk_entry};
ghost use Rattle.walrus_section_reader.specs.Parses.{Parses, ParsesExactly};
ghost use Rattle.walrus_code_reader.specs.Code.{chunk_entry_of, chunks_at, chunks_of, code_place, ends_behind, place_behind};

use std::alloc::Global as Alloc;
use walrus_known_sections::Chunk;
use walrus_section_reader::{Fault, FaultKind, Limited, Result};
use walrus_section_values::read_u32;
use wasm_reader::BinaryReader;
use wasm_reader::limits::MAX_WASM_FUNCTION_SIZE;

// The size of a body.
fn read_size(reader: &mut BinaryReader<'_>) -> Result<u32>
    ensures { ParsesExactly body_size.parse plain reader.old reader.new result }
{
    let offset = reader.original_position();
    let size = read_u32(reader)?;
    if size as usize > MAX_WASM_FUNCTION_SIZE {
        return Err(Fault::new(FaultKind::Limit(Limited::Body), offset));
    }
    Ok(size)
}

// The size of a body, and the place behind it, counted from `start`.
#[tactic(auto, using(crate::proofs::ChunkLemmas::within_is))]
fn read_placed_size(start: u64, reader: &mut BinaryReader<'_>) -> Result<(u64, u32)>
    requires { start ≤ code_place reader.old }
    ensures size { ParsesExactly (ends_at (code_place reader.old - start) body_size).parse plain reader.old reader.new result }
    ensures place { IfOk result (λ size. start + size.0 ≡ code_place reader.new) }
    ensures within { IfOk result (λ _. IsWithin reader.new) }
{
    let size = read_size(reader)?;
    let place = reader.original_position() - start;
    Ok((place, size))
}

// A size, and so many bytes.
#[tactic(auto, using(crate::proofs::ChunkLemmas::ran))]
fn read_chunk<'a>(start: u64, reader: &mut BinaryReader<'a>) -> Result<Chunk<'a>>
    requires { start ≤ code_place reader.old }
    ensures chunk { ParsesExactly (chunk_entry (code_place reader.old - start)).parse chunk_entry_of reader.old reader.new result }
    ensures place { IfOk result (λ chunk. start + place_behind chunk ≡ code_place reader.new) }
{
    let (place, size) = read_placed_size(start, reader)?;
    let bytes = reader.read_bytes(size as usize)?;
    Ok(Chunk { place, bytes })
}

/// So many bodies, whose places are counted from `start`.
pub fn read_chunks<'a>(
    alloc: Alloc,
    start: u64,
    count: u32,
    reader: &mut BinaryReader<'a>,
) -> Result<Vec<Chunk<'a>>>
    requires { start ≤ code_place reader.old }
    ensures chunks { Parses (chunks_at count (code_place reader.old - start)) chunks_of reader.old reader.new result }
    ensures place { IfOk result (λ chunks. start + ends_behind (code_place reader.old - start) (chunks_of chunks) ≡ code_place reader.new) }
{
    let mut chunks = Vec::new(alloc);
    for _ in 0..count {
        let chunk = read_chunk(start, reader)?;
        chunks.push(chunk)?;
    }
    Ok(chunks)
}
