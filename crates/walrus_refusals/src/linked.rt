//! Whether items and imports name each other, and functions have bodies.
ghost use Rattle.std.specs.Prelude.{◌≡◌, Decides, IfOk, MatchOption};
ghost use Rattle.std.specs.Option.{option_and_then};
ghost use Rattle.walrus_used.specs.walrus_module.Parts.{parts};
ghost use Rattle.walrus_arena.specs.Arena.{item_at};
ghost use Rattle.walrus_used.specs.walrus_module.walrus_module_items.declared.function.Function.{Function as AnyFunction};
ghost use Rattle.walrus_used.specs.walrus_module.walrus_module_items.declared.table.Table.{Table as AnyTable};
ghost use Rattle.walrus_used.specs.walrus_module.walrus_module_items.declared.memory.Memory.{Memory as AnyMemory};
ghost use Rattle.walrus_used.specs.walrus_module.walrus_module_items.declared.global.Global.{Global as AnyGlobal};
ghost use Rattle.walrus_used.specs.walrus_module.walrus_module_items.declared.tag.Tag.{Tag as AnyTag};
ghost use Rattle.walrus_used.specs.walrus_module.walrus_module_items.Imported.{function_import, global_import, tag_import};
ghost use Rattle.walrus_used.specs.walrus_module.Linking.{import_in};
ghost use Rattle.walrus_refusals.specs.Asked.{HasBody, IsBrought, IsOwnLinked, IsWholeIn};
ghost use Rattle.walrus_used.specs.walrus_module.Items.{brought};
ghost use Rattle.walrus_refusals.specs.Checks.{AllClaimTruly, ClaimsTruly};

use crate::arguments::has_arguments;
use std::alloc::{AllocError, Global};
use walrus_arena::{FunctionId, GlobalId, ImportId, MemoryId, TableId, TagId};
use walrus_exact::module_items::{FunctionKind, GlobalKind, Import, ImportKind, TagKind};
use walrus_marks::Marks;
use walrus_roots::Item;
use walrus_used::Check;
use walrus_used::collections::{
    ModuleFunctions, ModuleGlobals, ModuleImports, ModuleMemories, ModuleTables, ModuleTags,
};
use walrus_used::module::Module;
use wasm_formats::Space;

/// The item that an import brings.
pub fn brought(kind: ImportKind) -> Item
    ensures { result ≡ brought kind }
{
    match kind {
        ImportKind::Function(id) => Item::new(Space::Function, id),
        ImportKind::Table(id) => Item::new(Space::Table, id),
        ImportKind::Memory(id) => Item::new(Space::Memory, id),
        ImportKind::Global(id) => Item::new(Space::Global, id),
        ImportKind::Tag(id) => Item::new(Space::Tag, id),
    }
}

/// Whether the two are one item.
pub fn is_same(x: Item, y: Item) -> bool
    ensures { Decides result (x ≡ y) }
{
    x.space_number() == y.space_number() && x.id == y.id
}

// Whether the import, if one is named, lives and brings the item.
fn is_brought(imports: &ModuleImports, x: Item, named: Option<ImportId>) -> bool
    ensures { Decides result (IsBrought imports.now x named) }
{
    match named {
        Some(id) => imports.contains(id) && is_same(brought(imports.get(id).kind), x),
        None => true,
    }
}

// The import that brings a live function, as it says.
fn function_import(functions: &ModuleFunctions, id: FunctionId) -> Option<ImportId>
    ensures { result ≡ option_and_then (λ (f : AnyFunction). function_import f.kind) (item_at functions.now id) }
{
    if !functions.contains(id) {
        return None;
    }
    match &functions.get(id).kind {
        FunctionKind::Import(imported) => Some(imported.import),
        FunctionKind::Local(_) | FunctionKind::Uninitialized(_) => None,
    }
}

fn table_import(tables: &ModuleTables, id: TableId) -> Option<ImportId>
    ensures { result ≡ option_and_then (λ (t : AnyTable). t.import) (item_at tables.now id) }
{
    if !tables.contains(id) {
        return None;
    }
    tables.get(id).import
}

fn memory_import(memories: &ModuleMemories, id: MemoryId) -> Option<ImportId>
    ensures { result ≡ option_and_then (λ (x : AnyMemory). x.import) (item_at memories.now id) }
{
    if !memories.contains(id) {
        return None;
    }
    memories.get(id).import
}

fn global_import(globals: &ModuleGlobals, id: GlobalId) -> Option<ImportId>
    ensures { result ≡ option_and_then (λ (g : AnyGlobal). global_import g.kind) (item_at globals.now id) }
{
    if !globals.contains(id) {
        return None;
    }
    match &globals.get(id).kind {
        GlobalKind::Import(import) => Some(*import),
        GlobalKind::Local(_) => None,
    }
}

fn tag_import(tags: &ModuleTags, id: TagId) -> Option<ImportId>
    ensures { result ≡ option_and_then (λ (t : AnyTag). tag_import t.kind) (item_at tags.now id) }
{
    if !tags.contains(id) {
        return None;
    }
    match tags.get(id).kind {
        TagKind::Import(import) => Some(import),
        TagKind::Local => None,
    }
}

// The import that brings an item, as it says, if it lives.
fn import_of<B>(input: &Module<B>, x: Item) -> Option<ImportId>
    ensures { result ≡ import_in (parts input.now) x.space x.id }
{
    match x.space {
        Space::Function => function_import(&input.funcs, x.id()),
        Space::Table => table_import(&input.tables, x.id()),
        Space::Memory => memory_import(&input.memories, x.id()),
        Space::Global => global_import(&input.globals, x.id()),
        Space::Tag => tag_import(&input.tags, x.id()),
        Space::Type | Space::Element | Space::Data | Space::Local | Space::Label => None,
    }
}

// Whether a function, if it lives, is imported or has a body of its arguments.
fn is_whole<B>(alloc: Global, input: &Module<B>, id: FunctionId) -> Result<bool, AllocError>
    ensures { IfOk result (λ ok. Decides ok (MatchOption (item_at input.now.funcs id) (Unit {0}) (λ (f : AnyFunction). HasBody input.now.types f.kind))) }
{
    if !input.funcs.contains(id) {
        return Ok(true);
    }
    match &input.funcs.get(id).kind {
        FunctionKind::Import(_) => Ok(true),
        FunctionKind::Local(local) => has_arguments(alloc, &input.types, local),
        FunctionKind::Uninitialized(_) => Ok(false),
    }
}

/// Whether the import that an item names brings it, and a function is imported or has a body.
#[derive(Drop)]
pub(crate) struct OwnLinks<'a, B> {
    pub(crate) alloc: Global,
    pub(crate) input: &'a Module<B>,
}

impl<'a, B> Check for OwnLinks<'a, B> {
    ghost holds = { λ s x. IsOwnLinked (parts s.input.now) x };

    fn check(&self, item: Item) -> Result<bool, AllocError>
        ensures { IfOk result (λ ok. Decides ok (IsOwnLinked (parts self.now.input.now) item)) }
    {
        let named = import_of(self.input, item);
        if !is_brought(&self.input.imports, item, named) {
            return Ok(false);
        }
        match item.space {
            Space::Function => is_whole(self.alloc, self.input, item.id()),
            _ => Ok(true),
        }
    }
}

// Whether the item that the import brings names it back, where it was met.
fn claims_truly<B>(input: &Module<B>, marks: &Marks, id: ImportId, import: &Import) -> bool
    ensures { Decides result (ClaimsTruly (parts input.now) marks.now id import.now) }
{
    let x = brought(import.kind);
    if !marks.contains(x) {
        return true;
    }
    match import_of(input, x) {
        Some(named) => named.index() == id.index(),
        None => false,
    }
}

/// Whether all imports of what was met are named back.
pub(crate) fn all_claim_truly<B>(input: &Module<B>, marks: &Marks) -> bool
    ensures { Decides result (AllClaimTruly (parts input.now) marks.now) }
{
    for index in 0..input.imports.next_id().index() {
        let id = ImportId::from_index(index);
        if input.imports.contains(id) && !claims_truly(input, marks, id, input.imports.get(id)) {
            return false;
        }
    }
    true
}
