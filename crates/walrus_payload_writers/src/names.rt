//! The section `name` (Core Specification, appendix Custom Sections: name section).

ghost use Rattle.std.specs.Prelude.{◌≡◌, ◌++◌};
ghost use Rattle.wasm_formats.specs.declared.fault.Space.TheVariants.{Function};
ghost use Rattle.wasm_name_payloads.specs.Names.{space_number};
ghost use Rattle.wasm_name_payloads.specs.Written.{item_part, later_spaces, local_part, own_part, payload_bytes};
ghost use Rattle.walrus_payload_writers.specs.Writes.{Writes};
ghost use Rattle.walrus_payload_writers.specs.Names.{entries_of, functions_of};
ghost use Rattle.walrus_payload_writers.specs.Sections.{items_of, later_parts, names_of, names_section, own_of};

use crate::entries::{FunctionNames, NameEntry, write_functions, write_map};
use crate::leaves::{write_custom, write_name, write_part};
use walrus_errors::Result;
use wasm_formats::Space;

/// The names of a module, those of a space by rising number.
#[derive(Drop)]
pub struct Names<'a> {
    /// Its own.
    pub own: Option<&'a str>,
    /// Those of functions.
    pub functions: Vec<NameEntry<'a>>,
    /// Those of locals, by rising number of their functions.
    pub locals: Vec<FunctionNames<'a>>,
    /// Those of types.
    pub types: Vec<NameEntry<'a>>,
    /// Those of tables.
    pub tables: Vec<NameEntry<'a>>,
    /// Those of memories.
    pub memories: Vec<NameEntry<'a>>,
    /// Those of globals.
    pub globals: Vec<NameEntry<'a>>,
    /// Those of element segments.
    pub elements: Vec<NameEntry<'a>>,
    /// Those of data segments.
    pub data_segments: Vec<NameEntry<'a>>,
    /// Those of tags.
    pub tags: Vec<NameEntry<'a>>,
}

impl<'a> Names<'a> {
    // Those of a space.
    fn of(&self, space: Space) -> &[NameEntry<'a>]
        ensures { entries_of result.now ≡ items_of self.now space }
    {
        match space {
            Space::Function => self.functions.as_slice(),
            Space::Type => self.types.as_slice(),
            Space::Table => self.tables.as_slice(),
            Space::Memory => self.memories.as_slice(),
            Space::Global => self.globals.as_slice(),
            Space::Element => self.elements.as_slice(),
            Space::Data => self.data_segments.as_slice(),
            Space::Tag => self.tags.as_slice(),
            Space::Local | Space::Label => &[],
        }
    }
}

// The spaces of the subsections behind that of locals.
const LATER: [Space; 7] = [
    Space::Type,
    Space::Table,
    Space::Memory,
    Space::Global,
    Space::Element,
    Space::Data,
    Space::Tag,
];

// The id of the subsection of a space.
fn subsection(space: Space) -> u8
    ensures { result ≡ space_number space }
{
    match space {
        Space::Function => 1,
        Space::Type => 4,
        Space::Table => 5,
        Space::Memory => 6,
        Space::Global => 7,
        Space::Element => 8,
        Space::Data => 9,
        Space::Tag => 11,
        Space::Local | Space::Label => 0,
    }
}

// The module's name.
fn write_own(out: &mut Vec<u8>, own: Option<&str>) -> Result<()>
    ensures { Writes (own_part (own_of own.entry)) out.old.items out.new.items result }
{
    let Some(name) = own else {
        return Ok(());
    };
    let mut contents = Vec::new(*out.allocator());
    write_name(&mut contents, name)?;
    write_part(out, 0, contents.as_slice())
}

// The names of items of a space.
fn write_items(out: &mut Vec<u8>, space: Space, entries: &[NameEntry<'_>]) -> Result<()>
    ensures { Writes (item_part space (entries_of entries.now)) out.old.items out.new.items result }
{
    if entries.is_empty() {
        return Ok(());
    }
    let mut contents = Vec::new(*out.allocator());
    write_map(&mut contents, entries)?;
    write_part(out, subsection(space), contents.as_slice())
}

// The names of locals.
fn write_locals(out: &mut Vec<u8>, functions: &[FunctionNames<'_>]) -> Result<()>
    ensures { Writes (local_part (functions_of functions.now)) out.old.items out.new.items result }
{
    if functions.is_empty() {
        return Ok(());
    }
    let mut contents = Vec::new(*out.allocator());
    write_functions(&mut contents, functions)?;
    write_part(out, 2, contents.as_slice())
}

// The subsections behind that of locals.
fn write_later(out: &mut Vec<u8>, names: &Names<'_>) -> Result<()>
    ensures { Writes (later_parts names.now later_spaces) out.old.items out.new.items result }
{
    for space in &LATER {
        write_items(out, *space, names.of(*space))?;
    }
    Ok(())
}

// The subsections of functions and their locals, and those behind them.
#[tactic(auto, using(crate::proofs::Lemmas::writes_on, crate::proofs::Lemmas::refused_front))]
fn write_rest(out: &mut Vec<u8>, names: &Names<'_>) -> Result<()>
    ensures { Writes (local_part (functions_of names.now.locals.items) ++ later_parts names.now later_spaces) out.old.items out.new.items result }
{
    write_locals(out, names.locals.as_slice())?;
    write_later(out, names)
}

#[tactic(auto, using(crate::proofs::Lemmas::writes_on, crate::proofs::Lemmas::refused_front))]
fn write_functions_first(out: &mut Vec<u8>, names: &Names<'_>) -> Result<()>
    ensures { Writes (item_part Function (entries_of names.now.functions.items) ++ (local_part (functions_of names.now.locals.items) ++ later_parts names.now later_spaces)) out.old.items out.new.items result }
{
    write_items(out, Space::Function, names.functions.as_slice())?;
    write_rest(out, names)
}

// All subsections, by rising number.
#[tactic(auto, using(crate::proofs::Lemmas::writes_on, crate::proofs::Lemmas::refused_front))]
fn write_payload(out: &mut Vec<u8>, names: &Names<'_>) -> Result<()>
    ensures { Writes (payload_bytes (names_of names.now)) out.old.items out.new.items result }
{
    write_own(out, names.own)?;
    write_functions_first(out, names)
}

/// Puts the section `name` behind the bytes; nothing where there are no names.
///
/// # Errors
///
/// Want of memory; `OutputLimit` of a file where the section alone is longer than one may be. What was there stands at the front.
pub fn write_names(out: &mut Vec<u8>, names: &Names<'_>) -> Result<()>
    ensures { Writes (names_section (names_of names.now)) out.old.items out.new.items result }
{
    let mut payload = Vec::new(*out.allocator());
    write_payload(&mut payload, names)?;
    if payload.is_empty() {
        return Ok(());
    }
    write_custom(out, "name", payload.as_slice())
}
