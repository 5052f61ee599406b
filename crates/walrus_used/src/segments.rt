//! Which segments are active in which tables.
ghost use Rattle.std.specs.Prelude.{◌≡◌, [], IfOk, OnOk, length, replicate};
ghost use Rattle.walrus_marks.specs.Marks.{lists_of};
ghost use Rattle.std.specs.HashSet.{keys};
ghost use Rattle.std.specs.List.{fold};
ghost use Rattle.wasm_formats.specs.declared.fault.Space.TheVariants as spaces;
ghost use Rattle.walrus_marks.specs.Marks.{meet};
ghost use Rattle.walrus_references.specs.walrus_module.Parts.{parts};
ghost use Rattle.walrus_used.specs.Picks.{AreRooted};
ghost use Rattle.walrus_used.specs.Looks.{AreActive, listed, listed_segment, live_items};

use crate::roots::list_rooted;
use std::alloc::{AllocError, Global};
use walrus_arena::{DataSpace, ElementId, ElementSpace, IdHashSet};
use walrus_marks::Marks;
use walrus_module::Module;
use walrus_module::collections::{ModuleData, ModuleElements};
use walrus_module::module_items::ElementKind;
use walrus_roots::Item;
use wasm_formats::Space;

// So many empty lists.
fn empty_lists(alloc: Global, count: usize) -> Result<Vec<Vec<Item>>, AllocError>
    ensures { IfOk result (λ lists. lists_of lists.items ≡ replicate count []) }
{
    let mut lists: Vec<Vec<Item>> = Vec::new(alloc);
    for _ in 0..count {
        lists.push(Vec::new(alloc))?;
    }
    Ok(lists)
}

// Puts an item into one of the lists, where that is there.
fn list(lists: &mut Vec<Vec<Item>>, index: usize, item: Item) -> Result<(), AllocError>
    ensures { OnOk result (lists_of lists.new.items ≡ listed (lists_of lists.old.items) index item) }
{
    if index < lists.len() {
        lists[index].push(item)?;
    }
    Ok(())
}

// Puts a segment that is active into the list of its table.
fn list_segment(
    lists: &mut Vec<Vec<Item>>,
    id: ElementId,
    kind: &ElementKind,
) -> Result<(), AllocError>
    ensures { OnOk result (lists_of lists.new.items ≡ listed_segment (lists_of lists.old.items) id kind.now) }
{
    match kind {
        ElementKind::Active { table, .. } => {
            list(lists, table.index(), Item::new(Space::Element, id))
        }
        ElementKind::Passive | ElementKind::Declared => Ok(()),
    }
}

/// Element segments by what meets them.
#[derive(Drop)]
pub(crate) struct Segments {
    // For each table, those that are active in it.
    pub(crate) active: Vec<Vec<Item>>,
    // Those that are roots.
    pub(crate) rooted: Vec<Item>,
}

/// The element segments by what meets them, found in one pass.
///
/// # Errors
///
/// Want of memory.
pub(crate) fn element_segments<B>(alloc: Global, input: &Module<B>) -> Result<Segments, AllocError>
    ensures active { IfOk result (λ s. AreActive (parts input.now) (lists_of s.active.items)) }
    ensures rooted { IfOk result (λ s. AreRooted (parts input.now) s.rooted.items) }
{
    let mut active = empty_lists(alloc, input.tables.next_id().index())?;
    let mut rooted: Vec<Item> = Vec::new(alloc);
    for index in 0..input.elements.next_id().index() {
        let id = ElementId::from_index(index);
        if input.elements.contains(id) {
            let kind = &input.elements.get(id).kind;
            list_segment(&mut active, id, kind)?;
            list_rooted(
                &mut rooted,
                input.config().keep_segments,
                &input.tables,
                id,
                kind,
            )?;
        }
    }
    Ok(Segments { active, rooted })
}

/// Meets the live ones of these element segments.
pub(crate) fn meet_listed_elements(
    marks: &mut Marks,
    elements: &ModuleElements,
    set: &IdHashSet<ElementSpace>,
)
    ensures { marks.new ≡ fold meet marks.old (live_items elements.now spaces.Element (keys set.now)) }
{
    for id in set.iter() {
        if elements.contains(*id) {
            marks.meet(Item::new(Space::Element, *id));
        }
    }
}

/// Meets the live ones of these data segments.
pub(crate) fn meet_listed_data(marks: &mut Marks, segments: &ModuleData, set: &IdHashSet<DataSpace>)
    ensures { marks.new ≡ fold meet marks.old (live_items segments.now spaces.Data (keys set.now)) }
{
    for id in set.iter() {
        if segments.contains(*id) {
            marks.meet(Item::new(Space::Data, *id));
        }
    }
}
