//! The items that are kept for themselves.
ghost use Rattle.std.specs.Prelude.{◌≡◌, ◌⊎◌, ◌++◌, [], ◌∷◌, List, None, OnOk, IfOk, IfErr, MatchOption, map};
ghost use Rattle.walrus_arena.specs.Arena.{entries, item_at};
ghost use Rattle.walrus_errors.specs.declared.error.ModuleError.TheVariants as refusals;
ghost use Rattle.walrus_sections.specs.Sections.{pushed};
ghost use Rattle.walrus_used.specs.walrus_module.Items.{given_out};
ghost use Rattle.walrus_used.specs.walrus_module.Parts.{parts};
ghost use Rattle.walrus_reasons.specs.RootLists.{data_roots, element_roots, export_roots, filling_reason, is_imported, pushed_root, root_list, start_roots};

use crate::picks::{Picks, pick_each};
use crate::reason::Reason;
use std::alloc::{AllocError, Global};
use walrus_arena::{
    DataId, DataSpace, ElementId, ElementSpace, ExportId, ExportSpace, FunctionId, TableId,
};
use walrus_errors::ModuleError;
use walrus_module::Module;
use walrus_module::collections::ModuleTables;
use walrus_module::module_items::{Data, DataKind, Element, ElementKind, Export, ExportItem};
use walrus_roots::Item;
use walrus_sections::CustomSection;
use wasm_formats::Space;

// The item that an export gives out.
fn given_out(item: ExportItem) -> Item
    ensures { result ≡ given_out item }
{
    match item {
        ExportItem::Function(id) => Item::new(Space::Function, id),
        ExportItem::Table(id) => Item::new(Space::Table, id),
        ExportItem::Memory(id) => Item::new(Space::Memory, id),
        ExportItem::Global(id) => Item::new(Space::Global, id),
        ExportItem::Tag(id) => Item::new(Space::Tag, id),
    }
}

// What exports give out.
#[derive(Clone, Copy)]
struct Exported;

impl Picks<Export, ExportSpace, (Item, Reason)> for Exported {
    ghost picks = { λ _ id e. export_roots id e };

    fn pick(
        &self,
        id: ExportId,
        item: &Export,
        found: &mut Vec<(Item, Reason)>,
    ) -> Result<(), AllocError>
        ensures { OnOk result (found.new.items ≡ found.old.items ++ export_roots id item.now) }
    {
        found.push((given_out(item.item), Reason::Exported(id)))?;
        Ok(())
    }
}

// Data segments that are copied.
#[derive(Clone, Copy)]
struct Copied;

impl Picks<Data, DataSpace, (Item, Reason)> for Copied {
    ghost picks = { λ _ id d. data_roots id d.kind };

    fn pick(
        &self,
        id: DataId,
        item: &Data,
        found: &mut Vec<(Item, Reason)>,
    ) -> Result<(), AllocError>
        ensures { OnOk result (found.new.items ≡ found.old.items ++ data_roots id item.now.kind) }
    {
        match &item.kind {
            DataKind::Active { .. } => {
                found.push((Item::new(Space::Data, id), Reason::IsCopied))?;
                Ok(())
            }
            DataKind::Passive => Ok(()),
        }
    }
}

// Whether the table lives and is imported.
fn is_imported(tables: &ModuleTables, table: TableId) -> bool
    ensures { result ≡ is_imported (item_at tables.now table) }
{
    tables.contains(table) && tables.get(table).import.is_some()
}

// Why an active segment of the table is kept for itself, if it is.
fn filling_reason(keep: bool, tables: &ModuleTables, table: TableId) -> Option<Reason>
    ensures { result ≡ filling_reason keep (is_imported (item_at tables.now table)) }
{
    if is_imported(tables, table) {
        Some(Reason::FillsImport)
    } else if keep {
        Some(Reason::IsFilling)
    } else {
        None
    }
}

// Element segments that are declared, or fill one of these tables, if it is imported or all are kept.
#[derive(Clone, Copy)]
struct Filled<'a> {
    keep: bool,
    tables: &'a ModuleTables,
}

impl<'a> Picks<Element, ElementSpace, (Item, Reason)> for Filled<'a> {
    ghost picks = { λ p id e. element_roots p.keep p.tables.now id e.kind };

    fn pick(
        &self,
        id: ElementId,
        item: &Element,
        found: &mut Vec<(Item, Reason)>,
    ) -> Result<(), AllocError>
        ensures { OnOk result (found.new.items ≡ found.old.items ++ element_roots self.now.keep self.now.tables.now id item.now.kind) }
    {
        match &item.kind {
            ElementKind::Passive => Ok(()),
            ElementKind::Declared => {
                found.push((Item::new(Space::Element, id), Reason::IsDeclared))?;
                Ok(())
            }
            ElementKind::Active { table, .. } => {
                match filling_reason(self.keep, self.tables, *table) {
                    Some(why) => {
                        found.push((Item::new(Space::Element, id), why))?;
                        Ok(())
                    }
                    None => Ok(()),
                }
            }
        }
    }
}

fn add_start(found: &mut Vec<(Item, Reason)>, start: Option<FunctionId>) -> Result<(), AllocError>
    ensures { OnOk result (found.new.items ≡ found.old.items ++ start_roots start) }
{
    match start {
        Some(start) => {
            found.push((Item::new(Space::Function, start), Reason::Starts))?;
            Ok(())
        }
        None => Ok(()),
    }
}

fn add_pushed(found: &mut Vec<(Item, Reason)>, pushed: &[Item]) -> Result<(), AllocError>
    ensures { OnOk result (found.new.items ≡ found.old.items ++ map pushed_root pushed.now) }
{
    for item in pushed {
        found.push((*item, Reason::IsPushed))?;
    }
    Ok(())
}

// The roots, where custom sections push these.
fn roots_with<B>(
    alloc: Global,
    input: &Module<B>,
    pushed: &[Item],
) -> Result<Vec<(Item, Reason)>, AllocError>
    ensures { IfOk result (λ roots. roots.items ≡ root_list (parts input.now) pushed.now) }
{
    let mut found = Vec::new(alloc);
    pick_each(&input.exports, &Exported, &mut found)?;
    add_start(&mut found, input.start)?;
    pick_each(&input.data_segments, &Copied, &mut found)?;
    let filled = Filled {
        keep: input.config().keep_segments,
        tables: &input.tables,
    };
    pick_each(&input.elements, &filled, &mut found)?;
    add_pushed(&mut found, pushed)?;
    Ok(found)
}

/// The items of a module that are kept for themselves, as `gc::run` begins with them, each with the reason: what exports give out, the start
/// function, data segments that are copied, element segments that are declared or fill a table that is imported (any table, where the module's flag
/// `keep_segments` is set), and what custom sections push. An item stands there for each of its reasons.
///
/// # Errors
///
/// `SectionRefused` where a custom section refuses to say what it pushes. Want of memory.
pub fn roots<B: CustomSection>(
    alloc: Global,
    input: &Module<B>,
) -> Result<Vec<(Item, Reason)>, ModuleError>
    ensures listed { IfOk result (λ roots. MatchOption (pushed B.gc_roots (entries input.now.customs)) ⊥ (λ items. roots.items ≡ root_list (parts input.now) items)) }
    ensures refused { IfErr result (λ fault. (fault ≡ refusals.Memory) ⊎ ((fault ≡ refusals.SectionRefused) × (pushed B.gc_roots (entries input.now.customs) ≡ None))) }
{
    let pushed = input.customs.gc_roots(alloc)?;
    let found = roots_with(alloc, input, pushed.items())?;
    Ok(found)
}
