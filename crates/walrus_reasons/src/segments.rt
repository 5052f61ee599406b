//! Adding the segments of tables and memories.
ghost use Rattle.std.specs.Prelude.{◌≡◌, ◌++◌, OnOk};
ghost use Rattle.std.specs.HashSet.{keys};
ghost use Rattle.wasm_formats.specs.declared.fault.Space.TheVariants as spaces;
ghost use Rattle.walrus_used.specs.walrus_module.Parts.{parts};
ghost use Rattle.walrus_reasons.specs.Segments.{copied_data, filled_element, listed_for_memory, listed_for_table, live_items};

use crate::names::add_table;
use crate::picks::{Picks, pick_each};
use std::alloc::AllocError;
use walrus_arena::{DataId, DataSpace, ElementId, ElementSpace, IdHashSet, MemoryId, TableId};
use walrus_module::Module;
use walrus_module::collections::{ModuleData, ModuleElements};
use walrus_module::module_items::{Data, DataKind, Element, ElementKind, Memory, Table};
use walrus_roots::Item;
use wasm_formats::Space;

// Element segments that are active in the table.
#[derive(Clone, Copy)]
struct FilledInto(u32);

impl Picks<Element, ElementSpace, Item> for FilledInto {
    ghost picks = { λ p id e. filled_element p.0 id e.kind };

    fn pick(&self, id: ElementId, item: &Element, found: &mut Vec<Item>) -> Result<(), AllocError>
        ensures { OnOk result (found.new.items ≡ found.old.items ++ filled_element self.now.0 id item.now.kind) }
    {
        match &item.kind {
            ElementKind::Active { table, .. } => {
                if table.number() == self.0 {
                    found.push(Item::new(Space::Element, id))?;
                }
                Ok(())
            }
            ElementKind::Passive => Ok(()),
            ElementKind::Declared => Ok(()),
        }
    }
}

// Data segments that are active in the memory.
#[derive(Clone, Copy)]
struct CopiedInto(u32);

impl Picks<Data, DataSpace, Item> for CopiedInto {
    ghost picks = { λ p id d. copied_data p.0 id d.kind };

    fn pick(&self, id: DataId, item: &Data, found: &mut Vec<Item>) -> Result<(), AllocError>
        ensures { OnOk result (found.new.items ≡ found.old.items ++ copied_data self.now.0 id item.now.kind) }
    {
        match &item.kind {
            DataKind::Active { memory, .. } => {
                if memory.number() == self.0 {
                    found.push(Item::new(Space::Data, id))?;
                }
                Ok(())
            }
            DataKind::Passive => Ok(()),
        }
    }
}

// Adds the live ones of these element segments.
fn add_listed_elements(
    named: &mut Vec<Item>,
    elements: &ModuleElements,
    set: &IdHashSet<ElementSpace>,
) -> Result<(), AllocError>
    ensures { OnOk result (named.new.items ≡ named.old.items ++ live_items elements.now spaces.Element (keys set.now)) }
{
    for id in set.iter() {
        if elements.contains(*id) {
            named.push(Item::new(Space::Element, *id))?;
        }
    }
    Ok(())
}

// Adds the live ones of these data segments.
fn add_listed_data(
    named: &mut Vec<Item>,
    segments: &ModuleData,
    set: &IdHashSet<DataSpace>,
) -> Result<(), AllocError>
    ensures { OnOk result (named.new.items ≡ named.old.items ++ live_items segments.now spaces.Data (keys set.now)) }
{
    for id in set.iter() {
        if segments.contains(*id) {
            named.push(Item::new(Space::Data, *id))?;
        }
    }
    Ok(())
}

/// Adds what stands in the table of this id, and its segments.
///
/// # Errors
///
/// Want of memory.
pub(crate) fn add_for_table<B>(
    named: &mut Vec<Item>,
    input: &Module<B>,
    id: TableId,
    table: &Table,
) -> Result<(), AllocError>
    ensures { OnOk result (named.new.items ≡ named.old.items ++ listed_for_table (parts input.now) id table.now) }
{
    add_table(named, table)?;
    pick_each(&input.elements, &FilledInto(id.number()), named)?;
    add_listed_elements(named, &input.elements, &table.elem_segments)
}

/// Adds the segments of the memory of this id.
///
/// # Errors
///
/// Want of memory.
pub(crate) fn add_for_memory<B>(
    named: &mut Vec<Item>,
    input: &Module<B>,
    id: MemoryId,
    memory: &Memory,
) -> Result<(), AllocError>
    ensures { OnOk result (named.new.items ≡ named.old.items ++ listed_for_memory (parts input.now) id memory.now) }
{
    pick_each(&input.data_segments, &CopiedInto(id.number()), named)?;
    add_listed_data(named, &input.data_segments, &memory.data_segments)
}
