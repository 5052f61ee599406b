//! The exports of a module.
ghost use Rattle.std.specs.Prelude.{◌≡◌, ◌+◌, ◌≤◌, IfOk, OnOk, OnErr, None, slice_set, option_copied};
ghost use Rattle.std.specs.Option.{option_map, option_and_then};
ghost use Rattle.walrus_arena.specs.Arena.{next_id, IsLive};
ghost use Rattle.walrus_module_items.specs.declared.export.ExportItem.TheVariants as items;
ghost use Rattle.walrus_collections.specs.Added.{Adds, IsExport};
ghost use Rattle.walrus_collections.specs.Answers.{found, Removes};
ghost use Rattle.walrus_collections.specs.LookUps.{lowest};
ghost use Rattle.walrus_collections.specs.Tests.{exported_function, export_named, function_export_named, exports, same_item};

use crate::collection::{Collection, Test};
use std::alloc::AllocError;
use walrus_arena::{ExportId, ExportSpace, FunctionId, GlobalId, MemoryId, TableId};
use walrus_errors::{ModuleError, Result as ModuleResult};
use walrus_module_items::{Export, ExportItem};

/// The exports of a module.
pub type ModuleExports = Collection<Export, ExportSpace>;

// Exports of this name.
#[derive(Clone, Copy)]
struct Named<'a>(&'a str);

impl<'a> Test<Export> for Named<'a> {
    ghost passes = { λ t e. export_named t.0.now e };

    fn passes(&self, item: &Export) -> bool {
        item.name.as_str() == self.0
    }
}

// Exports of functions of this name.
#[derive(Clone, Copy)]
struct FunctionNamed<'a>(&'a str);

impl<'a> Test<Export> for FunctionNamed<'a> {
    ghost passes = { λ t e. function_export_named t.0.now e };

    fn passes(&self, item: &Export) -> bool {
        item.name.as_str() == self.0 && matches!(item.item, ExportItem::Function(_))
    }
}

/// Exports that give this out.
#[derive(Clone, Copy)]
pub struct ExportOf(pub ExportItem);

impl Test<Export> for ExportOf {
    ghost passes = { λ t e. exports t.0 e };

    fn passes(&self, item: &Export) -> bool {
        item.item == self.0
    }
}

impl Collection<Export, ExportSpace> {
    /// Adds an export of this name, and gives its id.
    ///
    /// # Errors
    ///
    /// Want of memory. The exports stay as they were.
    pub fn add<I: Into<ExportItem>>(&mut self, name: &str, item: I) -> Result<ExportId, AllocError>
        ensures id { IfOk result (λ id. id ≡ next_id self.old) }
        ensures added { OnOk result ((i : _) × I.converts item i × Adds (IsExport (next_id self.old) name.now i) self.old self.new) }
        ensures room { self.old.room ≤ self.new.room + 1 }
        ensures refused { OnErr result (self.new ≡ self.old) }
    {
        let item = item.into();
        let name = String::from_str(self.alloc(), name)?;
        self.reserve(1)?;
        let id = self.next_id();
        Ok(self.push_reserved(Export::new(id, name, item)))
    }

    /// Deletes the export of a live id.
    pub fn remove_root(&mut self, id: ExportId)
        requires { IsLive self.old id }
        ensures deleted { self.new.slots ≡ slice_set self.old.slots id None }
        ensures room { self.old.room ≤ self.new.room }
    {
        self.delete(id)
    }

    // The lowest export that gives out this.
    fn exported(&self, item: ExportItem) -> Option<&Export>
        ensures { option_copied result ≡ option_map (λ e. e.1) (lowest (exports item) self.now) }
    {
        match self.lowest(&ExportOf(item)) {
            Some((_, export)) => Some(export),
            None => None,
        }
    }

    /// The lowest export of a function. Goes through the exports.
    pub fn get_exported_func(&self, function: FunctionId) -> Option<&Export>
        ensures { option_copied result ≡ option_map (λ e. e.1) (lowest (exports (items.Function function)) self.now) }
    {
        self.exported(ExportItem::Function(function))
    }

    /// The lowest export of a table. Goes through the exports.
    pub fn get_exported_table(&self, table: TableId) -> Option<&Export>
        ensures { option_copied result ≡ option_map (λ e. e.1) (lowest (exports (items.Table table)) self.now) }
    {
        self.exported(ExportItem::Table(table))
    }

    /// The lowest export of a memory. Goes through the exports.
    pub fn get_exported_memory(&self, memory: MemoryId) -> Option<&Export>
        ensures { option_copied result ≡ option_map (λ e. e.1) (lowest (exports (items.Memory memory)) self.now) }
    {
        self.exported(ExportItem::Memory(memory))
    }

    /// The lowest export of a global. Goes through the exports.
    pub fn get_exported_global(&self, global: GlobalId) -> Option<&Export>
        ensures { option_copied result ≡ option_map (λ e. e.1) (lowest (exports (items.Global global)) self.now) }
    {
        self.exported(ExportItem::Global(global))
    }

    /// The function of the lowest export of a function of this name. Goes through the exports.
    ///
    /// # Errors
    ///
    /// `NotFound` where there is none.
    pub fn get_func(&self, name: &str) -> ModuleResult<FunctionId>
        ensures { result ≡ found (option_and_then (λ e. exported_function e.1.item) (lowest (function_export_named name.now) self.now)) }
    {
        match self.lowest(&FunctionNamed(name)) {
            Some((_, export)) => match export.item {
                ExportItem::Function(id) => Ok(id),
                _ => Err(ModuleError::NotFound),
            },
            None => Err(ModuleError::NotFound),
        }
    }

    /// Deletes the lowest export of this name. Goes through the exports.
    ///
    /// # Errors
    ///
    /// `NotFound` where there is none.
    pub fn remove(&mut self, name: &str) -> ModuleResult<()>
        ensures { Removes (export_named name.now) self.old result self.new }
    {
        match self.lowest_id(&Named(name)) {
            Some(id) => {
                self.delete(id);
                Ok(())
            }
            None => Err(ModuleError::NotFound),
        }
    }
}
