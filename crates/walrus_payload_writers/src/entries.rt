//! Maps of names, and lists of them.

ghost use Rattle.wasm_name_payloads.specs.Written.{association_bytes, map_bytes, locals_bytes};
ghost use Rattle.walrus_payload_writers.specs.Writes.{Writes};
ghost use Rattle.walrus_payload_writers.specs.Names.{entry_of, entries_of, function_of, functions_of, function_bytes};

use crate::leaves::{write_name, write_number, write_size};
use walrus_errors::Result;

/// A name, and the number of what it names.
#[derive(Clone, Copy)]
pub struct NameEntry<'a> {
    /// What it names.
    pub number: u32,
    /// The name.
    pub name: &'a str,
}

/// The names of a function's locals, by rising number.
#[derive(Drop)]
pub struct FunctionNames<'a> {
    /// The number of the function.
    pub function: u32,
    /// Its locals' names.
    pub locals: Vec<NameEntry<'a>>,
}

#[tactic(auto, using(crate::proofs::Lemmas::writes_on, crate::proofs::Lemmas::refused_front))]
fn write_entry(out: &mut Vec<u8>, entry: &NameEntry<'_>) -> Result<()>
    ensures { Writes (association_bytes (entry_of entry.now)) out.old.items out.new.items result }
{
    write_number(out, entry.number)?;
    write_name(out, entry.name)
}

/// A map of names: a count, and so many entries.
pub fn write_map(out: &mut Vec<u8>, entries: &[NameEntry<'_>]) -> Result<()>
    ensures { Writes (map_bytes (entries_of entries.now)) out.old.items out.new.items result }
{
    write_size(out, entries.len())?;
    for entry in entries {
        write_entry(out, entry)?;
    }
    Ok(())
}

#[tactic(auto, using(crate::proofs::Lemmas::writes_on, crate::proofs::Lemmas::refused_front))]
fn write_function(out: &mut Vec<u8>, function: &FunctionNames<'_>) -> Result<()>
    ensures { Writes (function_bytes (function_of function.now)) out.old.items out.new.items result }
{
    write_number(out, function.function)?;
    write_map(out, function.locals.as_slice())
}

/// The names of locals, function by function.
pub fn write_functions(out: &mut Vec<u8>, functions: &[FunctionNames<'_>]) -> Result<()>
    ensures { Writes (locals_bytes (functions_of functions.now)) out.old.items out.new.items result }
{
    write_size(out, functions.len())?;
    for function in functions {
        write_function(out, function)?;
    }
    Ok(())
}
