//! Meeting the roots of a module.
ghost use Rattle.std.specs.Prelude.{◌≡◌, ◌+◌, ◌++◌, ◌||◌, ℕ, List, [], ◌∷◌, Contains, OnOk};
ghost use Rattle.std.specs.List.{fold};
ghost use Rattle.walrus_roots.specs.declared.item.Item.{Item as AnyItem};
ghost use Rattle.walrus_marks.specs.Marks.{meet};
ghost use Rattle.walrus_marks.specs.Chains.{Meets};
ghost use Rattle.walrus_references.specs.walrus_module.Items.{given_out};
ghost use Rattle.walrus_references.specs.walrus_module.Parts.{parts};
ghost use Rattle.walrus_used.specs.Picks.{IsPicked, IsPickedAt, OtherRootWith, RootIn, active_data, is_imported, rooted_element, start_items};
ghost use Rattle.walrus_arena.specs.Arena.{item_at, next_id};

use std::alloc::AllocError;
use walrus_arena::{DataId, DataSpace, ElementId, ExportId, ExportSpace, FunctionId, Id, TableId};
use walrus_marks::Marks;
use walrus_module::Module;
use walrus_module::collections::{Collection, ModuleTables};
use walrus_module::module_items::{Data, DataKind, ElementKind, Export, ExportItem};
use walrus_roots::Item;
use wasm_formats::Space;

/// Which items are met for an item of a collection.
pub(crate) trait Picks<T, S> {
    /// The items that are met for the one of this id.
    ghost picks: { Self → ℕ → T → List AnyItem };

    /// Meets them.
    fn pick(&self, id: Id<S>, item: &T, marks: &mut Marks)
        ensures { marks.new ≡ fold meet marks.old (picks self.now id item.now) };
}

// Meets what is picked for the item of this number, if it lives.
fn meet_at<T, S, P: Picks<T, S>>(
    items: &Collection<T, S>,
    picks: &P,
    index: usize,
    marks: &mut Marks,
)
    ensures { Meets (IsPickedAt (λ id t x. Contains (P.picks picks.now id t) x) items.now index) marks.old marks.new }
{
    if index >= items.next_id().index() {
        return;
    }
    if items.contains(Id::from_index(index)) {
        let item = items.get(Id::from_index(index));
        picks.pick(Id::from_index(index), item, marks);
    }
}

// Meets what is picked for each live item.
fn meet_each<T, S, P: Picks<T, S>>(items: &Collection<T, S>, picks: &P, marks: &mut Marks)
    ensures { Meets (IsPicked (λ id t x. Contains (P.picks picks.now id t) x) items.now) marks.old marks.new }
{
    for index in 0..items.next_id().index() {
        meet_at(items, picks, index, marks);
    }
}

// The item that an export gives out.
fn given_out(item: ExportItem) -> Item
    ensures { result ≡ given_out item }
{
    match item {
        ExportItem::Function(id) => Item::new(Space::Function, id),
        ExportItem::Table(id) => Item::new(Space::Table, id),
        ExportItem::Memory(id) => Item::new(Space::Memory, id),
        ExportItem::Global(id) => Item::new(Space::Global, id),
        ExportItem::Tag(id) => Item::new(Space::Tag, id),
    }
}

// What exports give out.
#[derive(Clone, Copy)]
struct Exported;

impl Picks<Export, ExportSpace> for Exported {
    ghost picks = { λ _ _ e. given_out e.item ∷ [] };

    fn pick(&self, _id: ExportId, item: &Export, marks: &mut Marks)
        ensures { marks.new ≡ fold meet marks.old (given_out item.now.item ∷ []) }
    {
        marks.meet(given_out(item.item));
    }
}

// Active data segments.
#[derive(Clone, Copy)]
struct ActiveData;

impl Picks<Data, DataSpace> for ActiveData {
    ghost picks = { λ _ id d. active_data id d.kind };

    fn pick(&self, id: DataId, item: &Data, marks: &mut Marks)
        ensures { marks.new ≡ fold meet marks.old (active_data id item.now.kind) }
    {
        match &item.kind {
            DataKind::Active { .. } => marks.meet(Item::new(Space::Data, id)),
            DataKind::Passive => {}
        }
    }
}

// Whether the table lives and is imported.
fn is_imported(tables: &ModuleTables, table: TableId) -> bool
    ensures { result ≡ is_imported (item_at tables.now table) }
{
    tables.contains(table) && tables.get(table).import.is_some()
}

// Whether active segments of the table are roots: where all are kept, or the table is imported.
fn is_rooted(keep: bool, tables: &ModuleTables, table: TableId) -> bool
    ensures { result ≡ (keep || is_imported (item_at tables.now table)) }
{
    keep || is_imported(tables, table)
}

/// Puts an element segment into the list, if it is declared, or active: in an imported table, or in any where all are kept.
///
/// # Errors
///
/// Want of memory.
pub(crate) fn list_rooted(
    rooted: &mut Vec<Item>,
    keep: bool,
    tables: &ModuleTables,
    id: ElementId,
    kind: &ElementKind,
) -> Result<(), AllocError>
    ensures { OnOk result (rooted.new.items ≡ rooted.old.items ++ rooted_element keep tables.now id kind.now) }
{
    match kind {
        ElementKind::Passive => {}
        ElementKind::Declared => rooted.push(Item::new(Space::Element, id))?,
        ElementKind::Active { table, .. } => {
            if is_rooted(keep, tables, *table) {
                rooted.push(Item::new(Space::Element, id))?;
            }
        }
    }
    Ok(())
}

/// Meets these items.
pub(crate) fn meet_all(marks: &mut Marks, items: &[Item])
    ensures { marks.new ≡ fold meet marks.old items.now }
{
    for item in items {
        marks.meet(*item);
    }
}

fn meet_start(marks: &mut Marks, start: Option<FunctionId>)
    ensures { marks.new ≡ fold meet marks.old (start_items start) }
{
    if let Some(start) = start {
        marks.meet(Item::new(Space::Function, start));
    }
}

// Meets the roots but data segments.
fn meet_others<B>(marks: &mut Marks, input: &Module<B>, rooted: &[Item], pushed: &[Item])
    ensures { Meets (OtherRootWith (parts input.now) rooted.now pushed.now) marks.old marks.new }
{
    meet_each(&input.exports, &Exported, marks);
    meet_all(marks, rooted);
    meet_all(marks, pushed);
    meet_start(marks, input.start);
}

/// How many parts of roots there are: one for each data segment, and one for all others.
pub(crate) fn part_count<B>(input: &Module<B>) -> usize
    ensures { result ≡ next_id input.now.data_segments + 1 }
{
    input.data_segments.next_id().index() + 1
}

/// Meets the roots of a part, where custom sections push these and these element segments are roots.
pub(crate) fn meet_part<B>(
    marks: &mut Marks,
    input: &Module<B>,
    rooted: &[Item],
    pushed: &[Item],
    part: usize,
)
    ensures { Meets (RootIn (parts input.now) rooted.now pushed.now part) marks.old marks.new }
{
    if part == 0 {
        meet_others(marks, input, rooted, pushed);
    } else {
        meet_at(&input.data_segments, &ActiveData, part - 1, marks);
    }
}
