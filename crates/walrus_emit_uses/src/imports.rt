//! Imports (Core Specification, binary format: import section).

ghost use Rattle.std.specs.Prelude.{◌≡◌, ◌++◌, string_bytes};
ghost use Rattle.walrus_index_maps.specs.Views.{indices};
ghost use Rattle.walrus_pairing.specs.Looks.{number_of};
ghost use Rattle.walrus_linked.specs.walrus_module.Parts.{parts};
ghost use Rattle.walrus_meaning.specs.Meaning.{means, own_brought, own_global, own_import, own_memory, own_table, own_tag, slots_of};
ghost use Rattle.walrus_emit_parts.specs.Due.{Writes};
ghost use Rattle.walrus_emit_due.specs.Items.{global_type, memory, space_kind, table_type, tag};
ghost use Rattle.walrus_emit_due.specs.Slots.{live_at};
ghost use Rattle.walrus_emit_due.specs.Imports as due;

use walrus_arena::{FunctionId, GlobalId, MemoryId, TableId, TagId};
use walrus_collections::module_items::ImportKind;
use walrus_collections::{ModuleGlobals, ModuleMemories, ModuleTables, ModuleTags};
use walrus_emit_parts::{write_byte, write_name};
use walrus_emit_sections::{
    OwnEntry, write_global_type, write_limited, write_memory, write_table_type, write_tag,
};
use walrus_emit_values::write_index;
use walrus_errors::{Limited, ModuleError, Result, Space};
use walrus_index_maps::IdsToIndices;
use walrus_module::Module;
use walrus_module_items::Import;

// What a reader takes at most.
const MAX: u64 = 1_000_000;

fn write_function<B>(
    out: &mut Vec<u8>,
    input: &Module<B>,
    id: FunctionId,
    maps: &IdsToIndices,
) -> Result<()>
    ensures { Writes (due.linked (due.function_type (number_of (indices maps.now) 0)) (live_at (means (parts input.now)).functions id)) out.old.items out.new.items result }
{
    if !input.funcs.contains(id) {
        return Err(ModuleError::NotLinked);
    }
    write_index(
        out,
        Space::Type,
        maps.get_type_index(input.funcs.get(id).ty()),
    )
}

fn write_table(
    out: &mut Vec<u8>,
    items: &ModuleTables,
    id: TableId,
    maps: &IdsToIndices,
) -> Result<()>
    ensures { Writes (due.linked (table_type (number_of (indices maps.now) 0)) (live_at (slots_of own_table items.now) id)) out.old.items out.new.items result }
{
    if !items.contains(id) {
        return Err(ModuleError::NotLinked);
    }
    write_table_type(out, items.get(id), maps)
}

fn write_memory_of(out: &mut Vec<u8>, items: &ModuleMemories, id: MemoryId) -> Result<()>
    ensures { Writes (due.linked memory (live_at (slots_of own_memory items.now) id)) out.old.items out.new.items result }
{
    if !items.contains(id) {
        return Err(ModuleError::NotLinked);
    }
    write_memory(out, items.get(id))
}

fn write_global(
    out: &mut Vec<u8>,
    items: &ModuleGlobals,
    id: GlobalId,
    maps: &IdsToIndices,
) -> Result<()>
    ensures { Writes (due.linked (global_type (number_of (indices maps.now) 0)) (live_at (slots_of own_global items.now) id)) out.old.items out.new.items result }
{
    if !items.contains(id) {
        return Err(ModuleError::NotLinked);
    }
    write_global_type(out, items.get(id), maps)
}

fn write_tag_of(out: &mut Vec<u8>, items: &ModuleTags, id: TagId, maps: &IdsToIndices) -> Result<()>
    ensures { Writes (due.linked (tag (number_of (indices maps.now) 0)) (live_at (slots_of own_tag items.now) id)) out.old.items out.new.items result }
{
    if !items.contains(id) {
        return Err(ModuleError::NotLinked);
    }
    write_tag(out, items.get(id), maps)
}

// The byte of what it brings.
fn code(kind: ImportKind) -> u8
    ensures { result ≡ space_kind (own_brought kind).space }
{
    match kind {
        ImportKind::Function(_) => 0,
        ImportKind::Table(_) => 1,
        ImportKind::Memory(_) => 2,
        ImportKind::Global(_) => 3,
        ImportKind::Tag(_) => 4,
    }
}

// The type of what it brings.
fn write_type<B>(
    out: &mut Vec<u8>,
    input: &Module<B>,
    kind: ImportKind,
    maps: &IdsToIndices,
) -> Result<()>
    ensures { Writes (due.type_at (number_of (indices maps.now) 0) (means (parts input.now)) (own_brought kind).space (own_brought kind).number) out.old.items out.new.items result }
{
    match kind {
        ImportKind::Function(id) => write_function(out, input, id, maps),
        ImportKind::Table(id) => write_table(out, &input.tables, id, maps),
        ImportKind::Memory(id) => write_memory_of(out, &input.memories, id),
        ImportKind::Global(id) => write_global(out, &input.globals, id, maps),
        ImportKind::Tag(id) => write_tag_of(out, &input.tags, id, maps),
    }
}

// What it brings: its kind, and its type.
fn write_entity<B>(
    out: &mut Vec<u8>,
    input: &Module<B>,
    item: &Import,
    maps: &IdsToIndices,
) -> Result<()>
    ensures { Writes (due.entity (number_of (indices maps.now) 0) (means (parts input.now)) (own_brought item.now.kind).space (own_brought item.now.kind).number) out.old.items out.new.items result }
{
    put!(write_byte(out, code(item.kind)));
    write_type(out, input, item.kind, maps)
}

// The item's name, and what it is.
#[tactic(auto, using(walrus_emit_parts::proofs::Lemmas::writes_on, walrus_emit_parts::proofs::Lemmas::refused_front))]
fn write_item<B>(
    out: &mut Vec<u8>,
    input: &Module<B>,
    item: &Import,
    maps: &IdsToIndices,
) -> Result<()>
    ensures { Writes (due.name (string_bytes item.now.name) ++ due.entity (number_of (indices maps.now) 0) (means (parts input.now)) (own_brought item.now.kind).space (own_brought item.now.kind).number) out.old.items out.new.items result }
{
    put!(write_name(out, item.name.as_str()));
    write_entity(out, input, item, maps)
}

#[tactic(auto, using(walrus_emit_parts::proofs::Lemmas::writes_on, walrus_emit_parts::proofs::Lemmas::refused_front))]
fn write_import<B>(
    out: &mut Vec<u8>,
    input: &Module<B>,
    item: &Import,
    maps: &IdsToIndices,
) -> Result<()>
    ensures { Writes (due.import (number_of (indices maps.now) 0) (means (parts input.now)) (own_import item.now)) out.old.items out.new.items result }
{
    put!(write_name(out, item.module.as_str()));
    write_item(out, input, item, maps)
}

#[derive(Clone, Copy)]
struct Imports<'a, B> {
    input: &'a Module<B>,
    maps: &'a IdsToIndices,
}

impl<'a, B> OwnEntry<Import> for Imports<'a, B> {
    ghost use Rattle.std.specs.Prelude.{true};
    ghost use Rattle.wasm_grammar.specs.Modules as grammar;
    ghost use Rattle.walrus_index_maps.specs.Views.{indices};
    ghost use Rattle.walrus_pairing.specs.Looks.{number_of};
    ghost use Rattle.walrus_linked.specs.walrus_module.Parts.{parts};
    ghost use Rattle.walrus_meaning.specs.Meaning.{means, own_import};
    ghost use Rattle.walrus_emit_due.specs.Imports.{import};

    ghost Seen = { grammar.Import };

    ghost see = { own_import };

    ghost has_entry = { λ _. true };

    ghost due = { λ w. import (number_of (indices w.maps.now) 0) (means (parts w.input.now)) };

    fn has_entry(&self, _item: &Import) -> bool {
        true
    }

    fn write(&self, out: &mut Vec<u8>, item: &Import) -> Result<()> {
        write_import(out, self.input, item, self.maps)
    }
}

/// Puts the import section behind the bytes, by rising id; nothing where there is no import.
///
/// # Errors
///
/// `OutputLimit` where there are more imports than a reader takes, or one has a longer name; `NotLinked` where what one brings doesn't live;
/// `DeadReference` where a type has no number; `Unsupported` of exact types; want of memory. What was there stands at the front.
pub fn emit_imports<B>(out: &mut Vec<u8>, input: &Module<B>, maps: &IdsToIndices) -> Result<()>
    ensures { Writes (due.imports (number_of (indices maps.now) 0) (means (parts input.now))) out.old.items out.new.items result }
{
    let writer = Imports { input, maps };
    write_limited(out, 2, &writer, &input.imports, MAX, Limited::Imports)
}
