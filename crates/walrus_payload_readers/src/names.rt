//! The payload of the section `name` (Core Specification, appendix Custom Sections: name section).

ghost use Rattle.std.specs.Prelude.{◌≡◌, ◌++◌, map, IfOk, OnOk};
ghost use Rattle.wasm_name_payloads.specs.Names.{subsection, names_in};
ghost use Rattle.wasm_name_payloads.specs.Names.{part_of as part_at};
ghost use Rattle.walrus_payload_readers.specs.Keeps.{Keeps};
ghost use Rattle.walrus_payload_readers.specs.Bearers.{given_of};
ghost use Rattle.walrus_payload_readers.specs.Parts.{part_of, part_or, inside, own_name, Fills};

use crate::entries::{Bearer, Bearers, Given, Of, read_local_names, read_map};
use crate::leaves::{read_head, read_run, read_text};
use std::alloc::AllocError;
use wasm_formats::Space;
use wasm_reader::BinaryReader;

/// What a subsection names.
#[derive(Clone, Copy)]
pub enum Part {
    /// The module.
    ModuleName,
    /// Items of a space.
    ItemNames(Space),
    /// Locals.
    LocalNames,
}

// What the subsections of an id name; others are skipped.
fn named_part(id: u8) -> Option<Part>
    ensures { part_or result ≡ part_at id }
{
    match id {
        0 => Some(Part::ModuleName),
        1 => Some(Part::ItemNames(Space::Function)),
        2 => Some(Part::LocalNames),
        4 => Some(Part::ItemNames(Space::Type)),
        5 => Some(Part::ItemNames(Space::Table)),
        6 => Some(Part::ItemNames(Space::Memory)),
        7 => Some(Part::ItemNames(Space::Global)),
        8 => Some(Part::ItemNames(Space::Element)),
        9 => Some(Part::ItemNames(Space::Data)),
        11 => Some(Part::ItemNames(Space::Tag)),
        _ => None,
    }
}

// The module's name.
fn read_module_name<'a>(
    reader: &mut BinaryReader<'a>,
    names: &mut Vec<Given<'a>>,
) -> Result<bool, AllocError>
    ensures { IfOk result (λ whole. Keeps own_name.keeps given_of names.old.items names.new.items reader.old reader.new whole) }
{
    let Some(name) = read_text(reader) else {
        return Ok(false);
    };
    let bearer = Bearer::Module;
    names.push(Given { bearer, name })?;
    Ok(true)
}

// What a subsection names.
fn read_part<'a, B: Bearers>(
    bearers: &B,
    part: Part,
    reader: &mut BinaryReader<'a>,
    names: &mut Vec<Given<'a>>,
) -> Result<bool, AllocError>
    ensures { IfOk result (λ whole. Keeps (inside (B.file bearers.now) (part_of part)) given_of names.old.items names.new.items reader.old reader.new whole) }
{
    match part {
        Part::ModuleName => read_module_name(reader, names),
        Part::ItemNames(space) => read_map(bearers, Of::Items(space), reader, names),
        Part::LocalNames => read_local_names(bearers, reader, names),
    }
}

// The contents of a subsection, all of which have to be read.
fn read_contents<'a, B: Bearers>(
    bearers: &B,
    part: Part,
    contents: &'a [u8],
    names: &mut Vec<Given<'a>>,
) -> Result<bool, AllocError>
    ensures { IfOk result (λ whole. Fills (inside (B.file bearers.now) (part_of part) contents.now) given_of names.old.items names.new.items whole) }
{
    let mut reader = BinaryReader::new(contents, 0);
    let whole = read_part(bearers, part, &mut reader, names)?;
    Ok(whole && reader.eof())
}

// A subsection: an id, a size, and contents of that size.
fn read_subsection<'a, B: Bearers>(
    bearers: &B,
    reader: &mut BinaryReader<'a>,
    names: &mut Vec<Given<'a>>,
) -> Result<bool, AllocError>
    ensures { IfOk result (λ whole. Keeps (subsection (B.file bearers.now)).keeps given_of names.old.items names.new.items reader.old reader.new whole) }
{
    let Some((id, size)) = read_head(reader) else {
        return Ok(false);
    };
    let Some(contents) = read_run(size, reader) else {
        return Ok(false);
    };
    match named_part(id) {
        Some(part) => read_contents(bearers, part, contents, names),
        None => Ok(true),
    }
}

/// Pushes the names that a payload of the section `name` gives, in their order: those that stand whole before its first fault.
///
/// # Errors
///
/// Want of memory. A fault of the payload is none.
pub fn read_names<'a, B: Bearers>(
    bearers: &B,
    payload: &'a [u8],
    names: &mut Vec<Given<'a>>,
) -> Result<(), AllocError>
    ensures { OnOk result (map given_of names.new.items ≡ map given_of names.old.items ++ names_in (B.file bearers.now) payload.now) }
{
    let mut reader = BinaryReader::new(payload, 0);
    for _ in 0..payload.len() {
        if reader.eof() {
            return Ok(());
        }
        if !read_subsection(bearers, &mut reader, names)? {
            return Ok(());
        }
    }
    Ok(())
}
