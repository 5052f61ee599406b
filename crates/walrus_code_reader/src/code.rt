//! The section.

ghost use Rattle.std.specs.Prelude.{◌≡◌, ◌+◌, ◌-◌, IfOk, length};
ghost use Rattle.wasm_reader.specs.Cursor.{end_of, rest};
ghost use Rattle.wasm_reader.specs.Reading.{plain};
ghost use Rattle.wasm_formats.specs.Joined.{ends_at};
ghost use Rattle.wasm_formats.specs.Wholes.{sized, whole};
ghost use Rattle.walrus_known_sections.specs.wasm_sections.Sections.{code, code_size, function_count, own_functions, set_bodies};
ghost use Rattle.walrus_section_reader.specs.Parses.{Parses, ParsesExactly, ParsesWhole};
ghost use Rattle.walrus_known_sections.specs.State.{state_of};
ghost use Rattle.walrus_code_reader.specs.Code.{code_entry_of, code_place};

use crate::chunks::read_chunks;
use std::alloc::Global as Alloc;
use walrus_known_sections::{Chunk, Sections};
use walrus_section_reader::{Fault, FaultKind, Result, close_section, open_section};
use walrus_section_values::read_u32;
use wasm_reader::BinaryReader;

/// A code section as it stands.
#[derive(Drop)]
pub struct Code<'a> {
    /// The offset of the function count. Places are counted from there.
    pub start: u64,
    /// The function count.
    pub count: u32,
    /// The place behind the function count.
    pub first: u64,
    /// The bodies.
    pub bodies: Vec<Chunk<'a>>,
}

// How many functions aren't imported.
fn own_functions(sections: &Sections<'_>) -> usize
    ensures { result ≡ own_functions (state_of sections.now) }
{
    sections.functions.len().saturating_sub(sections.imported)
}

// The function count.
fn read_count(sections: &Sections<'_>, reader: &mut BinaryReader<'_>) -> Result<u32>
    ensures { ParsesExactly (function_count (state_of sections.now)).parse plain reader.old reader.new result }
{
    let offset = reader.original_position();
    let count = read_u32(reader)?;
    if count as usize != own_functions(sections) {
        return Err(Fault::new(FaultKind::Count, offset));
    }
    Ok(count)
}

// The function count, and the place behind it.
fn read_placed_count(sections: &Sections<'_>, reader: &mut BinaryReader<'_>) -> Result<(u64, u32)>
    ensures count { ParsesExactly (ends_at 0 (function_count (state_of sections.now))).parse plain reader.old reader.new result }
    ensures place { IfOk result (λ count. code_place reader.old + count.0 ≡ code_place reader.new) }
{
    let start = reader.original_position();
    let count = read_count(sections, reader)?;
    let place = reader.original_position() - start;
    Ok((place, count))
}

// The function count and bodies.
#[tactic(auto, using(crate::proofs::ChunkLemmas::within_is, crate::proofs::ChunkLemmas::to_end))]
fn read_code<'a>(
    alloc: Alloc,
    sections: &Sections<'a>,
    contents: &mut BinaryReader<'a>,
) -> Result<Code<'a>>
    ensures code { Parses (code (state_of sections.now)).parse code_entry_of contents.old contents.new result }
    ensures start { IfOk result (λ code. code.start + code_size (code_entry_of code) + length (rest contents.new) ≡ end_of contents.new) }
{
    let start = contents.original_position();
    let (first, count) = read_placed_count(sections, contents)?;
    let bodies = read_chunks(alloc, start, count, contents)?;
    Ok(Code {
        start,
        count,
        first,
        bodies,
    })
}

// The same as all of the contents.
#[tactic(auto, using(walrus_section_reader::specs::Repeats::same_end))]
fn read_whole_code<'a>(
    alloc: Alloc,
    sections: &Sections<'a>,
    contents: &mut BinaryReader<'a>,
) -> Result<Code<'a>>
    ensures code { ParsesWhole (whole (code (state_of sections.now))).parse code_entry_of contents.old result }
    ensures start { IfOk result (λ code. code.start + code_size (code_entry_of code) ≡ end_of contents.old) }
{
    let code = read_code(alloc, sections, contents)?;
    close_section(contents)?;
    Ok(code)
}

/// A code section behind its id.
pub fn read_code_section<'a>(
    alloc: Alloc,
    sections: &Sections<'a>,
    reader: &mut BinaryReader<'a>,
) -> Result<Code<'a>>
    ensures code { Parses (sized (whole (code (state_of sections.now)))).parse code_entry_of reader.old reader.new result }
    ensures start { IfOk result (λ code. code.start + code_size (code_entry_of code) + length (rest reader.new) ≡ end_of reader.new) }
{
    let mut contents = open_section(reader)?;
    let code = read_whole_code(alloc, sections, &mut contents)?;
    Ok(code)
}

/// Puts the bodies in.
#[tactic(auto, using(crate::proofs::ChunkLemmas::chunks_are))]
pub fn set_bodies<'a>(sections: &mut Sections<'a>, code: Code<'a>)
    ensures { state_of sections.new ≡ set_bodies (state_of sections.old) (code.entry.start + code_size (code_entry_of code.entry)) (code_entry_of code.entry) }
{
    sections.bodies = Some(code.bodies);
    sections.code_start = code.start;
}
