//! Lists of entries, each put into what was read before it.

ghost use Rattle.std.specs.Prelude.{List, ℕ};
ghost use Rattle.wasm_features.specs.declared.WasmFeatures.{WasmFeatures};
ghost use Rattle.wasm_formats.specs.Stops.{Parsing};
ghost use Rattle.walrus_section_reader.specs.Parses.{Parses};
ghost use Rattle.walrus_section_reader.specs.Steps.{entries_by, vec_by};

use crate::fault::Result;
use std::alloc::Global;
use wasm_reader::BinaryReader;

/// A kind of entries: how one is read, and put into what was read before it.
pub trait Entries<'a> {
    /// What entries are put into.
    type Into;

    // what contracts see of it
    ghost State: { Type 0 };

    ghost state: { Self.Into → State };

    // what an entry is parsed as, and what it changes
    ghost step: { WasmFeatures → State → List ℕ → Parsing State };

    /// Reads one more entry.
    fn read_entry(alloc: Global, into: &mut Self::Into, reader: &mut BinaryReader<'a>) -> Result<()>
        ensures { Parses (step reader.old.window.features (state into.old)) (λ _. state into.new) reader.old reader.new result };
}

/// So many entries. Nothing is reserved by the count.
pub fn read_entries<'a, E: Entries<'a>>(
    alloc: Global,
    count: usize,
    into: &mut E::Into,
    reader: &mut BinaryReader<'a>,
) -> Result<()>
    ensures { Parses (entries_by (E.step reader.old.window.features) count (E.state into.old)) (λ _. E.state into.new) reader.old reader.new result }
{
    for _ in 0..count {
        E::read_entry(alloc, into, reader)?;
    }
    Ok(())
}

/// A count, and that many entries (Core Specification, binary format, conventions: vectors).
pub fn read_vec<'a, E: Entries<'a>>(
    alloc: Global,
    into: &mut E::Into,
    reader: &mut BinaryReader<'a>,
) -> Result<()>
    ensures { Parses (vec_by (E.step reader.old.window.features) (E.state into.old)) (λ _. E.state into.new) reader.old reader.new result }
{
    let count = reader.read_var_u32()? as usize;
    read_entries::<E>(alloc, count, into, reader)
}
