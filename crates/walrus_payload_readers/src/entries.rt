//! What has a name, and the entries of maps of names.

ghost use Rattle.std.specs.Prelude.{◌≡◌, nat_lt, IfOk};
ghost use Rattle.wasm_grammar.specs.Modules.{Module};
ghost use Rattle.wasm_grammar.specs.States.{count_of};
ghost use Rattle.wasm_name_payloads.specs.Names.{known_function, local_count, local_names};
ghost use Rattle.walrus_payload_readers.specs.Keeps.{Keeps};
ghost use Rattle.walrus_payload_readers.specs.Gives.{Gives};
ghost use Rattle.wasm_reader.specs.Reading.{plain};
ghost use Rattle.wasm_name_payloads.specs.Joined.{times};
ghost use Rattle.walrus_payload_readers.specs.Bearers.{bearer_of, given_of, count_at, bearer_at, map_at, entry_at, locals_at};

use crate::leaves::{read_association, read_u32};
use std::alloc::AllocError;
use wasm_formats::Space;
use wasm_reader::BinaryReader;

/// What has a name.
#[derive(Clone, Copy, Debug, PartialEq, Eq)]
pub enum Bearer {
    /// The module.
    Module,
    /// The item of this number in a space.
    Item(Space, u32),
    /// The local of the second number, of the function of the first.
    Local(u32, u32),
}

/// A name that was given.
#[derive(Clone, Copy)]
pub struct Given<'a> {
    /// What it was given to.
    pub bearer: Bearer,
    /// The name.
    pub name: &'a str,
}

/// What there is in a module that can have a name.
pub trait Bearers {
    // the module that was read
    ghost file: { Self → Module };

    /// Whether there is an item of this number in a space.
    fn has_item(&self, space: Space, number: u32) -> bool
        ensures { result ≡ nat_lt number (count_of (file self.now) space) };

    /// Whether a function has a local of this number, arguments counted.
    fn has_local(&self, function: u32, number: u32) -> bool
        ensures { result ≡ nat_lt number (local_count (file self.now) function) };
}

/// What a map gives names to.
#[derive(Clone, Copy)]
pub enum Of {
    /// Items of a space.
    Items(Space),
    /// Locals of a function.
    Locals(u32),
}

fn is_there<B: Bearers>(bearers: &B, of: Of, number: u32) -> bool
    ensures { result ≡ nat_lt number (count_at (B.file bearers.now) of) }
{
    match of {
        Of::Items(space) => bearers.has_item(space, number),
        Of::Locals(function) => bearers.has_local(function, number),
    }
}

fn named_by(of: Of, number: u32) -> Bearer
    ensures { bearer_of result ≡ bearer_at of number }
{
    match of {
        Of::Items(space) => Bearer::Item(space, number),
        Of::Locals(function) => Bearer::Local(function, number),
    }
}

// An entry of a map, whose name is pushed if there is what it names. Whether it stands there.
fn read_entry<'a, B: Bearers>(
    bearers: &B,
    of: Of,
    reader: &mut BinaryReader<'a>,
    names: &mut Vec<Given<'a>>,
) -> Result<bool, AllocError>
    ensures { IfOk result (λ whole. Keeps (entry_at (B.file bearers.now) of).keeps given_of names.old.items names.new.items reader.old reader.new whole) }
{
    let Some((number, name)) = read_association(reader) else {
        return Ok(false);
    };
    if is_there(bearers, of, number) {
        let bearer = named_by(of, number);
        names.push(Given { bearer, name })?;
    }
    Ok(true)
}

// So many entries. Nothing is reserved by the count.
fn read_entries<'a, B: Bearers>(
    bearers: &B,
    of: Of,
    count: u32,
    reader: &mut BinaryReader<'a>,
    names: &mut Vec<Given<'a>>,
) -> Result<bool, AllocError>
    ensures { IfOk result (λ whole. Keeps (times (entry_at (B.file bearers.now) of) count).keeps given_of names.old.items names.new.items reader.old reader.new whole) }
{
    for _ in 0..count {
        if !read_entry(bearers, of, reader, names)? {
            return Ok(false);
        }
    }
    Ok(true)
}

/// A map of names: a count, and so many entries, whose names are pushed. Whether it stands there.
pub fn read_map<'a, B: Bearers>(
    bearers: &B,
    of: Of,
    reader: &mut BinaryReader<'a>,
    names: &mut Vec<Given<'a>>,
) -> Result<bool, AllocError>
    ensures { IfOk result (λ whole. Keeps (map_at (B.file bearers.now) of).keeps given_of names.old.items names.new.items reader.old reader.new whole) }
{
    let Some(count) = read_u32(reader) else {
        return Ok(false);
    };
    read_entries(bearers, of, count, reader, names)
}

// The number of a function that is there.
fn read_function<B: Bearers>(bearers: &B, reader: &mut BinaryReader<'_>) -> Option<u32>
    ensures { Gives (known_function (B.file bearers.now)).parse plain reader.old reader.new result }
{
    let Ok(function) = reader.read_var_u32() else {
        return None;
    };
    if !bearers.has_item(Space::Function, function) {
        return None;
    }
    Some(function)
}

// A function, and the names of its locals.
fn read_locals<'a, B: Bearers>(
    bearers: &B,
    reader: &mut BinaryReader<'a>,
    names: &mut Vec<Given<'a>>,
) -> Result<bool, AllocError>
    ensures { IfOk result (λ whole. Keeps (locals_at (B.file bearers.now)).keeps given_of names.old.items names.new.items reader.old reader.new whole) }
{
    let Some(function) = read_function(bearers, reader) else {
        return Ok(false);
    };
    read_map(bearers, Of::Locals(function), reader, names)
}

// So many of these.
fn read_functions<'a, B: Bearers>(
    bearers: &B,
    count: u32,
    reader: &mut BinaryReader<'a>,
    names: &mut Vec<Given<'a>>,
) -> Result<bool, AllocError>
    ensures { IfOk result (λ whole. Keeps (times (locals_at (B.file bearers.now)) count).keeps given_of names.old.items names.new.items reader.old reader.new whole) }
{
    for _ in 0..count {
        if !read_locals(bearers, reader, names)? {
            return Ok(false);
        }
    }
    Ok(true)
}

/// The names of locals, function by function. One that isn't there is a fault.
pub fn read_local_names<'a, B: Bearers>(
    bearers: &B,
    reader: &mut BinaryReader<'a>,
    names: &mut Vec<Given<'a>>,
) -> Result<bool, AllocError>
    ensures { IfOk result (λ whole. Keeps (local_names (B.file bearers.now)).keeps given_of names.old.items names.new.items reader.old reader.new whole) }
{
    let Some(count) = read_u32(reader) else {
        return Ok(false);
    };
    read_functions(bearers, count, reader, names)
}
