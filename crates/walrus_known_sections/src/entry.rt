//! Entries that are read as values, and then put into what was read before them.

ghost use Rattle.std.specs.Prelude.{◌≡◌, List, ℕ, OnOk};
ghost use Rattle.wasm_features.specs.declared.WasmFeatures.{WasmFeatures};
ghost use Rattle.wasm_formats.specs.Stops.{Parsing};
ghost use Rattle.wasm_sections.specs.wasm_grammar.States.{State};
ghost use Rattle.walrus_section_values.specs.walrus_section_reader.Parses.{Parses};
ghost use Rattle.walrus_known_sections.specs.State.{state_of};

use crate::sections::Sections;
use std::alloc::{AllocError, Global as Alloc};
use std::marker::PhantomData;
use walrus_section_values::section_reader::{Entries, Result};
use wasm_reader::BinaryReader;

/// A kind of entries: how one is read, beside what was read before it, and how it is put there.
pub trait Entry<'a> {
    /// An entry.
    type Value: Drop;

    // what contracts see of it
    ghost Seen: { Type 0 };

    ghost seen: { Self.Value → Seen };

    // what its bytes are parsed as
    ghost parse: { WasmFeatures → State → List ℕ → Parsing Seen };

    // the state behind it
    ghost put: { State → Seen → State };

    /// Reads an entry.
    fn read(
        alloc: Alloc,
        sections: &Sections<'a>,
        reader: &mut BinaryReader<'a>,
    ) -> Result<Self::Value>
        ensures { Parses (parse reader.old.window.features (state_of sections.now)) seen reader.old reader.new result };

    /// Puts an entry behind those before it.
    fn add(sections: &mut Sections<'a>, value: Self::Value) -> Result<(), AllocError>
        ensures { OnOk result (state_of sections.new ≡ put (state_of sections.old) (seen value)) };
}

/// The entries of a kind, each put into what was read before it.
pub struct Each<'a, E> {
    entry: PhantomData<E>,
    file: PhantomData<&'a [u8]>,
}

impl<'a, E: Entry<'a>> Entries<'a> for Each<'a, E> {
    type Into = Sections<'a>;

    ghost use Rattle.wasm_formats.specs.Stops.{◌>>=◌};
    ghost use Rattle.wasm_sections.specs.wasm_grammar.States.{State};
    ghost use Rattle.walrus_section_values.specs.walrus_section_reader.Steps.{put_in};
    ghost use Rattle.walrus_known_sections.specs.State.{state_of};

    ghost State = { State };

    ghost state = { state_of };

    ghost step = { λ features s bytes. E.parse features s bytes >>= put_in (E.put s) };

    fn read_entry(
        alloc: Alloc,
        into: &mut Self::Into,
        reader: &mut BinaryReader<'a>,
    ) -> Result<()> {
        let value = E::read(alloc, into, reader)?;
        E::add(into, value)?;
        Ok(())
    }
}
