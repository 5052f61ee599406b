//! What items are called.
ghost use Rattle.std.specs.Prelude.{◌≡◌, ◌++◌, IfOk, Option, codes, option_copied, string_bytes, slice_get};
ghost use Rattle.std.specs.Option.{option_and_then, option_map, option_map_or};
ghost use Rattle.walrus_arena.specs.Arena.{item_at};
ghost use Rattle.walrus_types.specs.Table.{type_at};
ghost use Rattle.walrus_module.specs.Items.{brought, given_out};
ghost use Rattle.walrus_module.specs.Parts.{parts};
ghost use Rattle.std.specs.declared.alloc.Global.{Global};
ghost use Rattle.std.specs.declared.string.String.{String};
ghost use Rattle.walrus_lookups.specs.Labels.{exported_name, import_text, imported_name, is_item, label_of, name_of, number_text, own_name};

use std::alloc::{AllocError, Global};
use walrus_arena::{LocalId, TypeId};
use walrus_collections::{Collection, ModuleExports, ModuleImports, Test};
use walrus_items::ModuleLocals;
use walrus_module::Module;
use walrus_module_items::{
    Data, Element, Export, ExportItem, Function, Global as GlobalItem, Import, ImportKind, Memory,
    Table, Tag,
};
use walrus_roots::Item;
use walrus_types::ModuleTypes;
use wasm_formats::Space;

// The item that an export gives out.
fn given_out(item: ExportItem) -> Item
    ensures { result ≡ given_out item }
{
    match item {
        ExportItem::Function(id) => Item::new(Space::Function, id),
        ExportItem::Table(id) => Item::new(Space::Table, id),
        ExportItem::Memory(id) => Item::new(Space::Memory, id),
        ExportItem::Global(id) => Item::new(Space::Global, id),
        ExportItem::Tag(id) => Item::new(Space::Tag, id),
    }
}

// The item that an import brings.
fn brought(kind: ImportKind) -> Item
    ensures { result ≡ brought kind }
{
    match kind {
        ImportKind::Function(id) => Item::new(Space::Function, id),
        ImportKind::Table(id) => Item::new(Space::Table, id),
        ImportKind::Memory(id) => Item::new(Space::Memory, id),
        ImportKind::Global(id) => Item::new(Space::Global, id),
        ImportKind::Tag(id) => Item::new(Space::Tag, id),
    }
}

fn is_item(item: Item, other: Item) -> bool
    ensures { result ≡ is_item item other }
{
    item.space_number() == other.space_number() && item.id == other.id
}

// Exports that give the item out.
#[derive(Clone, Copy)]
struct GivesOut(Item);

impl Test<Export> for GivesOut {
    ghost passes = { λ t e. is_item (given_out e.item) t.0 };

    fn passes(&self, item: &Export) -> bool {
        is_item(given_out(item.item), self.0)
    }
}

// Imports that bring the item.
#[derive(Clone, Copy)]
struct Brings(Item);

impl Test<Import> for Brings {
    ghost passes = { λ t i. is_item (brought i.kind) t.0 };

    fn passes(&self, item: &Import) -> bool {
        is_item(brought(item.kind), self.0)
    }
}

// Things that may have a name of their own.
trait Nameable {
    ghost names: { Self → Option (String Global) };

    fn own_name(&self) -> &Option<String>
        ensures { result.now ≡ names self.now };
}

impl Nameable for Function {
    ghost names = { λ x. x.name };

    fn own_name(&self) -> &Option<String> {
        &self.name
    }
}

impl Nameable for Table {
    ghost names = { λ x. x.name };

    fn own_name(&self) -> &Option<String> {
        &self.name
    }
}

impl Nameable for Memory {
    ghost names = { λ x. x.name };

    fn own_name(&self) -> &Option<String> {
        &self.name
    }
}

impl Nameable for Tag {
    ghost names = { λ x. x.name };

    fn own_name(&self) -> &Option<String> {
        &self.name
    }
}

impl Nameable for GlobalItem {
    ghost names = { λ x. x.name };

    fn own_name(&self) -> &Option<String> {
        &self.name
    }
}

impl Nameable for Element {
    ghost names = { λ x. x.name };

    fn own_name(&self) -> &Option<String> {
        &self.name
    }
}

impl Nameable for Data {
    ghost names = { λ x. x.name };

    fn own_name(&self) -> &Option<String> {
        &self.name
    }
}

// The text of a name.
fn text_of(name: &Option<String>) -> Option<&str>
    ensures { option_copied result ≡ option_map string_bytes name.now }
{
    match name {
        Some(name) => Some(name.as_str()),
        None => None,
    }
}

// The name of its own of a live item.
fn name_in<T: Nameable, S>(items: &Collection<T, S>, item: Item) -> Option<&str>
    ensures { option_copied result ≡ name_of T.names (item_at items.now item.id) }
{
    if !items.contains(item.id()) {
        return None;
    }
    text_of(items.get(item.id()).own_name())
}

fn type_name(types: &ModuleTypes, id: TypeId) -> Option<&str>
    ensures { option_copied result ≡ option_and_then (λ ty. ty.name) (type_at types.now id) }
{
    if !types.contains(id) {
        return None;
    }
    text_of(&types.get(id).name)
}

fn local_name(locals: &ModuleLocals, id: LocalId) -> Option<&str>
    ensures { option_copied result ≡ name_of (λ local. local.name) (slice_get locals.now id) }
{
    match locals.iter().as_slice().get(id.index()) {
        Some(local) => text_of(&local.name),
        None => None,
    }
}

// The item's own name.
fn own_name<B>(input: &Module<B>, item: Item) -> Option<&str>
    ensures { option_copied result ≡ own_name (parts input.now) item }
{
    match item.space {
        Space::Type => type_name(&input.types, item.id()),
        Space::Function => name_in(&input.funcs, item),
        Space::Table => name_in(&input.tables, item),
        Space::Memory => name_in(&input.memories, item),
        Space::Tag => name_in(&input.tags, item),
        Space::Global => name_in(&input.globals, item),
        Space::Element => name_in(&input.elements, item),
        Space::Data => name_in(&input.data_segments, item),
        Space::Local => local_name(&input.locals, item.id()),
        Space::Label => None,
    }
}

// The name of the lowest export that gives the item out.
fn exported_name(exports: &ModuleExports, item: Item) -> Option<&str>
    ensures { option_copied result ≡ exported_name exports.now item }
{
    match exports.lowest(&GivesOut(item)) {
        Some((_, export)) => Some(export.name.as_str()),
        None => None,
    }
}

// The names of an import.
fn import_text(alloc: Global, module: &str, name: &str) -> Result<String, AllocError>
    ensures { IfOk result (λ text. string_bytes text ≡ «module».now ++ codes "." ++ name.now) }
{
    format!(in alloc; "{module}.{name}")
}

fn number_text(alloc: Global, id: u32) -> Result<String, AllocError>
    ensures { IfOk result (λ text. string_bytes text ≡ number_text id) }
{
    format!(in alloc; "#{id}")
}

// The names of the lowest import that brings the item, or its number.
fn import_or_number(
    alloc: Global,
    imports: &ModuleImports,
    item: Item,
) -> Result<String, AllocError>
    ensures { IfOk result (λ text. string_bytes text ≡ option_map_or (λ t. t) (imported_name imports.now item) (number_text item.id)) }
{
    match imports.lowest(&Brings(item)) {
        Some((_, import)) => import_text(alloc, import.module.as_str(), import.name.as_str()),
        None => number_text(alloc, item.id),
    }
}

/// What items are called.
pub trait Labels {
    /// What an item is called: its name; where it has none, that of the lowest export that gives it out; where none does, the module and the
    /// name of its import, joined by a dot; where it has none, `#` and the number of its id. Goes through exports and imports.
    ///
    /// # Errors
    ///
    /// Want of memory.
    fn label(&self, alloc: Global, item: Item) -> Result<String, AllocError>;
}

impl<B> Labels for Module<B> {
    fn label(&self, alloc: Global, item: Item) -> Result<String, AllocError>
        ensures { IfOk result (λ text. string_bytes text ≡ label_of (parts self.now) item) }
    {
        if let Some(name) = own_name(self, item) {
            return String::from_str(alloc, name);
        }
        if let Some(name) = exported_name(&self.exports, item) {
            return String::from_str(alloc, name);
        }
        import_or_number(alloc, &self.imports, item)
    }
}
