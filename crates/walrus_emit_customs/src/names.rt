//! The names of a module's items, by their numbers.

ghost use Rattle.std.specs.Prelude.{ℕ, ◌≡◌, ◌++◌, List, Option, IfOk, OnOk, slice_get};
ghost use Rattle.std.specs.List.{filter_map};
ghost use Rattle.walrus_index_maps.specs.Maps.{Indices};
ghost use Rattle.walrus_index_maps.specs.Views.{indices};
ghost use Rattle.walrus_module.specs.Parts.{parts};
ghost use Rattle.walrus_payload_writers.specs.Names.{entries_of, functions_of};
ghost use Rattle.walrus_payload_writers.specs.Sections.{names_of as spelled, own_of};
ghost use Rattle.walrus_emit_numbers.specs.Order.{AreWithin};
ghost use Rattle.walrus_emit_parts.specs.Due.{Writes};
ghost use Rattle.walrus_emit_customs.specs.Names as due;
ghost use Rattle.walrus_emit_customs.specs.Names.{body_names, by_number, entry, item_names, local_name, names_due, type_name};

use std::alloc::{AllocError, Global as Allocator};
use walrus_arena::{FunctionId, LocalId, TypeId};
use walrus_emit_numbers::BodyFacts;
use walrus_errors::{ModuleError, Result};
use walrus_index_maps::IdsToIndices;
use walrus_items::Local;
use walrus_module::Module;
use walrus_module::collections::Collection;
use walrus_module::module_items::{Data, Element, Function, Global, Memory, Table, Tag};
use walrus_payload_writers::{FunctionNames, NameEntry, Names, write_names};
use walrus_types::{EmittedTypes, ModuleTypes};

type Entries<'a> = std::result::Result<Vec<NameEntry<'a>>, AllocError>;

// The text of a name.
fn text(name: &Option<String>) -> Option<&str>
    ensures { own_of result ≡ due.text name.now }
{
    match name {
        Some(name) => Some(name.as_str()),
        None => None,
    }
}

// What may have a number and a name.
trait Named {
    ghost numbered: { Indices → Self → Option ℕ };

    ghost named: { Self → Option (List ℕ) };

    fn number(&self, maps: &IdsToIndices) -> Option<u32>
        ensures { result ≡ numbered (indices maps.now) self.now };

    fn name(&self) -> Option<&str>
        ensures { own_of result ≡ named self.now };
}

impl Named for Function {
    ghost use Rattle.walrus_emit_customs.specs.Names.{text};

    ghost numbered = { λ i x. i.functions.number x.id };

    ghost named = { λ x. text x.name };

    fn number(&self, maps: &IdsToIndices) -> Option<u32> {
        maps.get_func_index(self.id())
    }

    fn name(&self) -> Option<&str> {
        text(&self.name)
    }
}

impl Named for Table {
    ghost use Rattle.walrus_emit_customs.specs.Names.{text};

    ghost numbered = { λ i x. i.tables.number x.id };

    ghost named = { λ x. text x.name };

    fn number(&self, maps: &IdsToIndices) -> Option<u32> {
        maps.get_table_index(self.id())
    }

    fn name(&self) -> Option<&str> {
        text(&self.name)
    }
}

impl Named for Memory {
    ghost use Rattle.walrus_emit_customs.specs.Names.{text};

    ghost numbered = { λ i x. i.memories.number x.id };

    ghost named = { λ x. text x.name };

    fn number(&self, maps: &IdsToIndices) -> Option<u32> {
        maps.get_memory_index(self.id())
    }

    fn name(&self) -> Option<&str> {
        text(&self.name)
    }
}

impl Named for Global {
    ghost use Rattle.walrus_emit_customs.specs.Names.{text};

    ghost numbered = { λ i x. i.globals.number x.id };

    ghost named = { λ x. text x.name };

    fn number(&self, maps: &IdsToIndices) -> Option<u32> {
        maps.get_global_index(self.id())
    }

    fn name(&self) -> Option<&str> {
        text(&self.name)
    }
}

impl Named for Tag {
    ghost use Rattle.walrus_emit_customs.specs.Names.{text};

    ghost numbered = { λ i x. i.tags.number x.id };

    ghost named = { λ x. text x.name };

    fn number(&self, maps: &IdsToIndices) -> Option<u32> {
        maps.get_tag_index(self.id())
    }

    fn name(&self) -> Option<&str> {
        text(&self.name)
    }
}

impl Named for Element {
    ghost use Rattle.walrus_emit_customs.specs.Names.{text};

    ghost numbered = { λ i x. i.elements.number x.id };

    ghost named = { λ x. text x.name };

    fn number(&self, maps: &IdsToIndices) -> Option<u32> {
        maps.get_element_index(self.id())
    }

    fn name(&self) -> Option<&str> {
        text(&self.name)
    }
}

impl Named for Data {
    ghost use Rattle.walrus_emit_customs.specs.Names.{text};

    ghost numbered = { λ i x. i.segments.number x.id };

    ghost named = { λ x. text x.name };

    fn number(&self, maps: &IdsToIndices) -> Option<u32> {
        maps.get_data_index(self.id())
    }

    fn name(&self) -> Option<&str> {
        text(&self.name)
    }
}

// Puts a number and a name behind the entries, where there are both.
fn add<'a>(
    entries: &mut Vec<NameEntry<'a>>,
    number: Option<u32>,
    name: Option<&'a str>,
) -> std::result::Result<(), AllocError>
    ensures { OnOk result (entries_of entries.new.items ≡ entries_of entries.old.items ++ entry number (own_of name.entry)) }
{
    if let (Some(number), Some(name)) = (number, name) {
        entries.push(NameEntry { number, name })?;
    }
    Ok(())
}

// Sorts entries by their numbers; those of one number stay in their order.
fn sort(entries: &mut Vec<NameEntry<'_>>) -> std::result::Result<(), AllocError>
    ensures { OnOk result (entries_of entries.new.items ≡ by_number (entries_of entries.old.items)) }
{
    entries.sort_by_key(|entry| entry.number)?;
    Ok(())
}

// The names of items of one kind, by rising number.
fn names_of<'a, T: Named, S>(
    alloc: Allocator,
    items: &'a Collection<T, S>,
    maps: &IdsToIndices,
) -> Entries<'a>
    ensures { IfOk result (λ entries. entries_of entries.items ≡ item_names (T.numbered (indices maps.now)) T.named items.now) }
{
    let mut entries = Vec::new(alloc);
    for item in items.iter() {
        add(&mut entries, item.number(maps), item.name())?;
    }
    sort(&mut entries)?;
    Ok(entries)
}

// Puts the name of a type behind the entries, if it lives and has a number and a name.
fn add_type<'a>(
    entries: &mut Vec<NameEntry<'a>>,
    types: &'a ModuleTypes,
    id: TypeId,
    number: Option<u32>,
) -> std::result::Result<(), AllocError>
    ensures { OnOk result (entries_of entries.new.items ≡ entries_of entries.old.items ++ entry number (type_name types.now id)) }
{
    if !types.contains(id) {
        return Ok(());
    }
    add(entries, number, text(&types.get(id).name))
}

// The names of types, in the order in which these are written.
fn type_names<'a>(alloc: Allocator, types: &'a ModuleTypes, emitted: &EmittedTypes) -> Entries<'a>
    ensures { IfOk result (λ entries. entries_of entries.items ≡ due.type_names types.now emitted.now) }
{
    let mut entries = Vec::new(alloc);
    for id in &emitted.ids {
        add_type(&mut entries, types, *id, emitted.indices.get(*id))?;
    }
    Ok(entries)
}

// Puts the name of a function's local behind the entries, if it has a number and a name.
fn add_local<'a>(
    entries: &mut Vec<NameEntry<'a>>,
    locals: &'a [Local],
    function: FunctionId,
    id: LocalId,
    maps: &IdsToIndices,
) -> std::result::Result<(), AllocError>
    ensures { OnOk result (entries_of entries.new.items ≡ entries_of entries.old.items ++ entry ((indices maps.now).locals function id) (local_name locals.now id)) }
{
    match locals.get(id.index()) {
        Some(local) => add(
            entries,
            maps.get_local_index(function, id),
            text(&local.name),
        ),
        None => Ok(()),
    }
}

// The names of a function's used locals, by rising number.
fn locals_of<'a>(
    alloc: Allocator,
    locals: &'a [Local],
    body: &BodyFacts,
    maps: &IdsToIndices,
) -> Entries<'a>
    ensures { IfOk result (λ entries. entries_of entries.items ≡ due.used_names locals.now (indices maps.now) body.now) }
{
    let mut entries = Vec::new(alloc);
    for id in &body.used_locals {
        add_local(&mut entries, locals, body.function, *id, maps)?;
    }
    sort(&mut entries)?;
    Ok(entries)
}

// Puts the names of a function's locals behind the others, if it has some.
fn add_function<'a>(
    alloc: Allocator,
    functions: &mut Vec<FunctionNames<'a>>,
    locals: &'a [Local],
    body: &BodyFacts,
    maps: &IdsToIndices,
) -> std::result::Result<(), AllocError>
    ensures { OnOk result (functions_of functions.new.items ≡ functions_of functions.old.items ++ body_names locals.now (indices maps.now) body.now) }
{
    let names = locals_of(alloc, locals, body, maps)?;
    if names.is_empty() {
        return Ok(());
    }
    if let Some(function) = maps.get_func_index(body.function) {
        functions.push(FunctionNames {
            function,
            locals: names,
        })?;
    }
    Ok(())
}

// The names of all functions' locals, in the order of the functions.
fn local_names<'a>(
    alloc: Allocator,
    locals: &'a [Local],
    facts: &[BodyFacts],
    order: &[usize],
    maps: &IdsToIndices,
) -> std::result::Result<Vec<FunctionNames<'a>>, AllocError>
    requires { AreWithin facts.now order.now }
    ensures { IfOk result (λ functions. functions_of functions.items ≡ due.local_names locals.now (indices maps.now) (filter_map (slice_get facts.now) order.now)) }
{
    let mut functions = Vec::new(alloc);
    for at in order {
        add_function(alloc, &mut functions, locals, &facts[*at], maps)?;
    }
    Ok(functions)
}

fn all_names<'a, B>(
    alloc: Allocator,
    input: &'a Module<B>,
    types: &EmittedTypes,
    facts: &[BodyFacts],
    order: &[usize],
    maps: &IdsToIndices,
) -> std::result::Result<Names<'a>, AllocError>
    requires { AreWithin facts.now order.now }
    ensures { IfOk result (λ names. spelled names ≡ due.names (parts input.now) types.now (filter_map (slice_get facts.now) order.now) (indices maps.now)) }
{
    let functions = names_of(alloc, &input.funcs, maps)?;
    let all = input.locals.iter().as_slice();
    let locals = local_names(alloc, all, facts, order, maps)?;
    let of_types = type_names(alloc, &input.types, types)?;
    let tables = names_of(alloc, &input.tables, maps)?;
    let memories = names_of(alloc, &input.memories, maps)?;
    let globals = names_of(alloc, &input.globals, maps)?;
    let elements = names_of(alloc, &input.elements, maps)?;
    let data_segments = names_of(alloc, &input.data_segments, maps)?;
    let tags = names_of(alloc, &input.tags, maps)?;
    Ok(Names {
        own: text(&input.name),
        functions,
        locals,
        types: of_types,
        tables,
        memories,
        globals,
        elements,
        data_segments,
        tags,
    })
}

/// Puts the section `name` behind the bytes: the names of what has a number, by it, those of locals where a body names them; nothing
/// where there are none.
///
/// # Errors
///
/// Want of memory; `OutputLimit` of a file where the section alone is longer than one may be. What was there stands at the front.
#[tactic(auto, using(crate::proofs::PayloadLemmas::names_written, crate::proofs::PayloadLemmas::wants_memory))]
pub fn emit_names<B>(
    alloc: Allocator,
    out: &mut Vec<u8>,
    input: &Module<B>,
    types: &EmittedTypes,
    facts: &[BodyFacts],
    order: &[usize],
    maps: &IdsToIndices,
) -> Result<()>
    requires { AreWithin facts.now order.now }
    ensures { Writes (names_due (parts input.now) types.now (filter_map (slice_get facts.now) order.now) (indices maps.now)) out.old.items out.new.items result }
{
    let names = match all_names(alloc, input, types, facts, order, maps) {
        Ok(names) => names,
        Err(_) => return Err(ModuleError::Memory),
    };
    write_names(out, &names)
}
