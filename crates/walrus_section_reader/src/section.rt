//! Sections whose contents are one value, or a list of entries.

ghost use Rattle.std.specs.Prelude.{List, ℕ};
ghost use Rattle.walrus_section_reader.specs.Parses.{Parses, ParsesWhole};
ghost use Rattle.walrus_section_reader.specs.Steps.{sized_by, vec_by, whole_by};

use crate::entries::{Entries, read_vec};
use crate::fault::Result;
use crate::window::{close_section, open_section};
use std::alloc::Global;
use std::marker::PhantomData;
use wasm_reader::BinaryReader;

/// A vec of entries, as one entry.
pub struct Many<E> {
    entries: PhantomData<E>,
}

impl<'a, E: Entries<'a>> Entries<'a> for Many<E> {
    type Into = E::Into;

    ghost State = { E.State };

    ghost state = { E.state };

    ghost step = { λ features. vec_by (E.step features) };

    fn read_entry(
        alloc: Global,
        into: &mut Self::Into,
        reader: &mut BinaryReader<'a>,
    ) -> Result<()> {
        read_vec::<E>(alloc, into, reader)
    }
}

// An entry that is all of a window.
fn read_whole<'a, E: Entries<'a>>(
    alloc: Global,
    into: &mut E::Into,
    contents: &mut BinaryReader<'a>,
) -> Result<()>
    ensures { ParsesWhole (whole_by (E.step contents.old.window.features (E.state into.old))) (λ _. E.state into.new) contents.old result }
{
    E::read_entry(alloc, into, contents)?;
    close_section(contents)?;
    Ok(())
}

/// A section behind its id: a size, and an entry that is all of so many bytes.
pub fn read_section<'a, E: Entries<'a>>(
    alloc: Global,
    into: &mut E::Into,
    reader: &mut BinaryReader<'a>,
) -> Result<()>
    ensures { Parses (sized_by (whole_by (E.step reader.old.window.features (E.state into.old)))) (λ _. E.state into.new) reader.old reader.new result }
{
    let mut contents = open_section(reader)?;
    read_whole::<E>(alloc, into, &mut contents)?;
    Ok(())
}
