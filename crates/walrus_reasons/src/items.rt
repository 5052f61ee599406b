//! What an item refers to.
ghost use Rattle.std.specs.Prelude.{◌≡◌, ◌++◌, OnOk, IfOk, option_copied, slice_get};
ghost use Rattle.walrus_arena.specs.Arena.{item_at};
ghost use Rattle.wasm_formats.specs.declared.fault.Space.TheVariants as spaces;
ghost use Rattle.walrus_used.specs.walrus_module.Parts.{parts};
ghost use Rattle.walrus_used.specs.walrus_references.References.{Refers, RefersIn, data_items, element_items, global_items, local_items, named_by, tag_items};
ghost use Rattle.walrus_reasons.specs.Added.{Adds, AreJust};
ghost use Rattle.walrus_reasons.specs.Segments.{listed_for_memory, listed_for_table};

use crate::bodies::add_kind;
use crate::names::{add_data, add_element, add_global, add_val_type};
use crate::segments::{add_for_memory, add_for_table};
use crate::types::add_type_at;
use std::alloc::{AllocError, Global};
use walrus_arena::{DataId, ElementId, FunctionId, GlobalId, LocalId, MemoryId, TableId, TagId};
use walrus_items::{Local, ModuleLocals};
use walrus_module::Module;
use walrus_module::collections::{ModuleData, ModuleElements, ModuleGlobals, ModuleTags};
use walrus_roots::Item;
use wasm_formats::Space;

fn add_function_at<B>(
    alloc: Global,
    named: &mut Vec<Item>,
    input: &Module<B>,
    id: FunctionId,
) -> Result<(), AllocError>
    ensures { OnOk result (Adds (RefersIn (parts input.now) spaces.Function id) named.old.items named.new.items) }
{
    if input.funcs.contains(id) {
        let function = input.funcs.get(id);
        named.push(Item::new(Space::Type, function.ty()))?;
        add_kind(alloc, named, &function.kind)?;
    }
    Ok(())
}

fn add_table_at<B>(named: &mut Vec<Item>, input: &Module<B>, id: TableId) -> Result<(), AllocError>
    ensures { OnOk result (named.new.items ≡ named.old.items ++ named_by (listed_for_table (parts input.now) id) (item_at input.now.tables id)) }
{
    if input.tables.contains(id) {
        add_for_table(named, input, id, input.tables.get(id))?;
    }
    Ok(())
}

fn add_memory_at<B>(
    named: &mut Vec<Item>,
    input: &Module<B>,
    id: MemoryId,
) -> Result<(), AllocError>
    ensures { OnOk result (named.new.items ≡ named.old.items ++ named_by (listed_for_memory (parts input.now) id) (item_at input.now.memories id)) }
{
    if input.memories.contains(id) {
        add_for_memory(named, input, id, input.memories.get(id))?;
    }
    Ok(())
}

fn add_global_at(
    named: &mut Vec<Item>,
    globals: &ModuleGlobals,
    id: GlobalId,
) -> Result<(), AllocError>
    ensures { OnOk result (named.new.items ≡ named.old.items ++ named_by global_items (item_at globals.now id)) }
{
    if globals.contains(id) {
        add_global(named, globals.get(id))?;
    }
    Ok(())
}

fn add_tag_at(named: &mut Vec<Item>, tags: &ModuleTags, id: TagId) -> Result<(), AllocError>
    ensures { OnOk result (named.new.items ≡ named.old.items ++ named_by tag_items (item_at tags.now id)) }
{
    if tags.contains(id) {
        named.push(Item::new(Space::Type, tags.get(id).ty()))?;
    }
    Ok(())
}

fn add_element_at(
    named: &mut Vec<Item>,
    elements: &ModuleElements,
    id: ElementId,
) -> Result<(), AllocError>
    ensures { OnOk result (named.new.items ≡ named.old.items ++ named_by element_items (item_at elements.now id)) }
{
    if elements.contains(id) {
        add_element(named, elements.get(id))?;
    }
    Ok(())
}

fn add_data_at(named: &mut Vec<Item>, segments: &ModuleData, id: DataId) -> Result<(), AllocError>
    ensures { OnOk result (named.new.items ≡ named.old.items ++ named_by (λ d. data_items d.kind) (item_at segments.now id)) }
{
    if segments.contains(id) {
        add_data(named, &segments.get(id).kind)?;
    }
    Ok(())
}

fn local_at(locals: &ModuleLocals, id: LocalId) -> Option<&Local>
    ensures { option_copied result ≡ slice_get locals.now id }
{
    locals.iter().as_slice().get(id.index())
}

fn add_local_at(named: &mut Vec<Item>, locals: &ModuleLocals, id: LocalId) -> Result<(), AllocError>
    ensures { OnOk result (named.new.items ≡ named.old.items ++ named_by local_items (slice_get locals.now id)) }
{
    match local_at(locals, id) {
        Some(local) => add_val_type(named, &local.ty()),
        None => Ok(()),
    }
}

// Adds what the item refers to.
fn add_references<B>(
    alloc: Global,
    named: &mut Vec<Item>,
    input: &Module<B>,
    item: Item,
) -> Result<(), AllocError>
    ensures { OnOk result (Adds (Refers (parts input.now) «item») named.old.items named.new.items) }
{
    match item.space {
        Space::Type => add_type_at(alloc, named, input, item.id()),
        Space::Function => add_function_at(alloc, named, input, item.id()),
        Space::Table => add_table_at(named, input, item.id()),
        Space::Memory => add_memory_at(named, input, item.id()),
        Space::Tag => add_tag_at(named, &input.tags, item.id()),
        Space::Global => add_global_at(named, &input.globals, item.id()),
        Space::Element => add_element_at(named, &input.elements, item.id()),
        Space::Data => add_data_at(named, &input.data_segments, item.id()),
        Space::Local => add_local_at(named, &input.locals, item.id()),
        Space::Label => Ok(()),
    }
}

/// The items that an item refers to, as `gc::run` follows them, some of them perhaps more than once; none where it doesn't live. Takes time in
/// proportion to what is written of the item: of a function its body, of a type its group too, of a table or a memory all segments too.
///
/// # Errors
///
/// Want of memory.
pub fn references<B>(alloc: Global, input: &Module<B>, item: Item) -> Result<Vec<Item>, AllocError>
    ensures { IfOk result (λ items. AreJust items.items (Refers (parts input.now) «item»)) }
{
    let mut named = Vec::new(alloc);
    add_references(alloc, &mut named, input, item)?;
    Ok(named)
}
