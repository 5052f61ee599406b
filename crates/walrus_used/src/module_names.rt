//! What the items of a module name.
ghost use Rattle.std.specs.Prelude.{◌≡◌, ◌++◌, OnOk, Contains, slice_get, slice_index_or, []};
ghost use Rattle.walrus_arena.specs.Arena.{item_at};
ghost use Rattle.std.specs.List.{fold};
ghost use Rattle.walrus_types.specs.Table.{HasMember};
ghost use Rattle.walrus_items.specs.Items.{Group};
ghost use Rattle.walrus_marks.specs.Marks.{lists_of, meet};
ghost use Rattle.walrus_marks.specs.Chains.{Meets};
ghost use Rattle.walrus_references.specs.References.{KindNames, named_by, type_items, global_items, tag_items, element_items, data_items, local_items};
ghost use Rattle.walrus_references.specs.walrus_module.Items.{written_type};
ghost use Rattle.walrus_used.specs.Picks.{RootIn, RootWith};
ghost use Rattle.walrus_references.specs.walrus_module.Parts.{parts};
ghost use Rattle.walrus_used.specs.Looks.{Looks, LooksIn, LooksInGroup, group_items, table_looks, memory_looks};
ghost use Rattle.wasm_formats.specs.declared.fault.Space.TheVariants as spaces;

use crate::bodies::meet_body;
use crate::names::{meet_data, meet_element, meet_global, meet_table, meet_types, meet_val_type};
use crate::roots::{meet_all, meet_part, part_count};
use crate::segments::{meet_listed_data, meet_listed_elements};
use crate::sweep::PartNames;
use std::alloc::{AllocError, Global};
use walrus_arena::{
    DataId, ElementId, FunctionId, GlobalId, LocalId, MemoryId, TableId, TagId, TypeId,
};
use walrus_items::ModuleLocals;
use walrus_marks::Marks;
use walrus_module::Module;
use walrus_module::collections::{ModuleData, ModuleElements, ModuleGlobals, ModuleTags};
use walrus_module::module_items::FunctionKind;
use walrus_roots::Item;
use walrus_types::ModuleTypes;
use wasm_formats::Space;

// Meets the members of a group, or for all but its first member that one alone.
fn meet_group(marks: &mut Marks, id: TypeId, members: &[TypeId])
    ensures { marks.new ≡ fold meet marks.old (group_items id members.now) }
{
    if let Some(first) = members.first() {
        if first.index() == id.index() {
            meet_types(marks, members);
        } else {
            marks.meet(Item::new(Space::Type, *first));
        }
    }
}

// Meets the explicit group of a type: all of it by its first member.
fn meet_group_of(marks: &mut Marks, types: &ModuleTypes, id: TypeId)
    ensures { Meets (LooksInGroup types.now id) marks.old marks.new }
{
    walrus_types::laws::types_are_grouped(types);
    if let Some(group) = types.rec_group_for_type(id) {
        if group.is_explicit() {
            meet_group(marks, id, group.types.as_slice());
        }
    }
}

// Meets the types that a type names.
fn meet_type(
    alloc: Global,
    marks: &mut Marks,
    types: &ModuleTypes,
    id: TypeId,
) -> Result<(), AllocError>
    ensures { OnOk result (marks.new ≡ fold meet marks.old (named_by type_items (written_type types.now id))) }
{
    if types.contains(id) && !types.get(id).is_entry() {
        let mut named = Vec::new(alloc);
        types.get(id).referenced_types(&mut named)?;
        meet_types(marks, named.as_slice());
    }
    Ok(())
}

// Meets the types that a type names, and its explicit group.
fn meet_type_at<B>(
    alloc: Global,
    marks: &mut Marks,
    input: &Module<B>,
    id: TypeId,
) -> Result<(), AllocError>
    ensures { OnOk result (Meets (LooksIn (parts input.now) [] spaces.Type id) marks.old marks.new) }
{
    meet_type(alloc, marks, &input.types, id)?;
    meet_group_of(marks, &input.types, id);
    Ok(())
}

fn meet_kind(alloc: Global, marks: &mut Marks, kind: &FunctionKind) -> Result<(), AllocError>
    ensures { OnOk result (Meets (KindNames kind.now) marks.old marks.new) }
{
    match kind {
        FunctionKind::Local(local) => meet_body(alloc, marks, local.builder().seqs()),
        FunctionKind::Import(_) | FunctionKind::Uninitialized(_) => Ok(()),
    }
}

fn meet_function<B>(
    alloc: Global,
    marks: &mut Marks,
    input: &Module<B>,
    id: FunctionId,
) -> Result<(), AllocError>
    ensures { OnOk result (Meets (LooksIn (parts input.now) [] spaces.Function id) marks.old marks.new) }
{
    if input.funcs.contains(id) {
        let function = input.funcs.get(id);
        marks.meet(Item::new(Space::Type, function.ty()));
        meet_kind(alloc, marks, &function.kind)?;
    }
    Ok(())
}

fn meet_active(marks: &mut Marks, active: &[Vec<Item>], table: usize)
    ensures { marks.new ≡ fold meet marks.old (slice_index_or (lists_of active.now) table []) }
{
    if let Some(segments) = active.get(table) {
        meet_all(marks, segments.as_slice());
    }
}

fn meet_table_at<B>(marks: &mut Marks, input: &Module<B>, active: &[Vec<Item>], id: TableId)
    ensures { marks.new ≡ fold meet marks.old (named_by (table_looks (parts input.now) (lists_of active.now) id) (item_at input.now.tables id)) }
{
    if input.tables.contains(id) {
        let table = input.tables.get(id);
        meet_table(marks, table);
        meet_listed_elements(marks, &input.elements, &table.elem_segments);
        meet_active(marks, active, id.index());
    }
}

fn meet_memory_at<B>(marks: &mut Marks, input: &Module<B>, id: MemoryId)
    ensures { marks.new ≡ fold meet marks.old (named_by (memory_looks (parts input.now)) (item_at input.now.memories id)) }
{
    if input.memories.contains(id) {
        let memory = input.memories.get(id);
        meet_listed_data(marks, &input.data_segments, &memory.data_segments);
    }
}

fn meet_global_at(marks: &mut Marks, globals: &ModuleGlobals, id: GlobalId)
    ensures { marks.new ≡ fold meet marks.old (named_by global_items (item_at globals.now id)) }
{
    if globals.contains(id) {
        meet_global(marks, globals.get(id));
    }
}

fn meet_tag_at(marks: &mut Marks, tags: &ModuleTags, id: TagId)
    ensures { marks.new ≡ fold meet marks.old (named_by tag_items (item_at tags.now id)) }
{
    if tags.contains(id) {
        marks.meet(Item::new(Space::Type, tags.get(id).ty()));
    }
}

fn meet_element_at(marks: &mut Marks, elements: &ModuleElements, id: ElementId)
    ensures { marks.new ≡ fold meet marks.old (named_by element_items (item_at elements.now id)) }
{
    if elements.contains(id) {
        meet_element(marks, elements.get(id));
    }
}

fn meet_data_at(marks: &mut Marks, segments: &ModuleData, id: DataId)
    ensures { marks.new ≡ fold meet marks.old (named_by (λ d. data_items d.kind) (item_at segments.now id)) }
{
    if segments.contains(id) {
        meet_data(marks, &segments.get(id).kind);
    }
}

fn meet_local_at(marks: &mut Marks, locals: &ModuleLocals, id: LocalId)
    ensures { marks.new ≡ fold meet marks.old (named_by local_items (slice_get locals.now id)) }
{
    if let Some(local) = locals.iter().as_slice().get(id.index()) {
        meet_val_type(marks, &local.ty());
    }
}

/// A module, its roots and references.
#[derive(Drop)]
pub(crate) struct ModuleNames<'a, B> {
    pub(crate) alloc: Global,
    pub(crate) input: &'a Module<B>,
    // The element segments that are roots.
    pub(crate) rooted: &'a [Item],
    // What custom sections push.
    pub(crate) pushed: &'a [Item],
    // For each table the segments that are active in it.
    pub(crate) active: &'a [Vec<Item>],
}

impl<'a, B> PartNames for ModuleNames<'a, B> {
    ghost is_root = { λ s x. RootWith (parts s.input.now) s.rooted.now s.pushed.now x };

    ghost is_root_in = { λ s part x. RootIn (parts s.input.now) s.rooted.now s.pushed.now part x };

    ghost refers = { λ s x y. Looks (parts s.input.now) (lists_of s.active.now) x y };

    fn part_count(&self) -> usize {
        part_count(self.input)
    }

    fn meet_part(&self, part: usize, marks: &mut Marks) {
        meet_part(marks, self.input, self.rooted, self.pushed, part);
    }

    fn meet_named(&self, item: Item, marks: &mut Marks) -> Result<(), AllocError> {
        let input = self.input;
        match item.space {
            Space::Type => meet_type_at(self.alloc, marks, input, item.id())?,
            Space::Function => meet_function(self.alloc, marks, input, item.id())?,
            Space::Table => meet_table_at(marks, input, self.active, item.id()),
            Space::Memory => meet_memory_at(marks, input, item.id()),
            Space::Tag => meet_tag_at(marks, &input.tags, item.id()),
            Space::Global => meet_global_at(marks, &input.globals, item.id()),
            Space::Element => meet_element_at(marks, &input.elements, item.id()),
            Space::Data => meet_data_at(marks, &input.data_segments, item.id()),
            Space::Local => meet_local_at(marks, &input.locals, item.id()),
            Space::Label => {}
        }
        Ok(())
    }
}
