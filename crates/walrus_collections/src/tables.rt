//! The tables of a module.
ghost use Rattle.std.specs.Prelude.{◌≡◌, ◌<◌, ◌+◌, ◌≤◌, IfOk, OnErr, None, Some, IsOk};
ghost use Rattle.walrus_arena.specs.Arena.{next_id};
ghost use Rattle.walrus_collections.specs.Added.{Adds, IsTable};
ghost use Rattle.walrus_collections.specs.Answers.{ids_of, at_most_one};
ghost use Rattle.walrus_collections.specs.Tests.{is_function_table};

use crate::collection::Collection;
use std::alloc::AllocError;
use walrus_arena::{ImportId, TableId, TableSpace};
use walrus_errors::{ModuleError, Result as ModuleResult};
use walrus_forms::RefType;
use walrus_instr::ConstExpr;
use walrus_module_items::Table;

/// The tables of a module.
pub type ModuleTables = Collection<Table, TableSpace>;

impl Collection<Table, TableSpace> {
    /// Adds a table that this import brings, and gives its id. The import is to name the table, too.
    ///
    /// # Errors
    ///
    /// Want of memory. The tables stay as they were.
    pub fn add_import(
        &mut self,
        table64: bool,
        initial: u64,
        maximum: Option<u64>,
        element_ty: RefType,
        import: ImportId,
    ) -> Result<TableId, AllocError>
        ensures id { IfOk result (λ id. id ≡ next_id self.old) }
        ensures added { IfOk result (λ id. Adds (IsTable id table64 initial maximum element_ty None (Some import)) self.old self.new) }
        ensures room { self.old.room ≤ self.new.room + 1 }
        ensures succeeds { 0 < self.old.room → IsOk result }
        ensures refused { OnErr result (self.new ≡ self.old) }
    {
        self.reserve(1)?;
        let id = self.next_id();
        let mut table = Table::new(self.alloc(), id, table64, initial, maximum, element_ty);
        table.import = Some(import);
        Ok(self.push_reserved(table))
    }

    /// Adds a table of the module's own, whose elements are null at first, and gives its id.
    ///
    /// # Errors
    ///
    /// Want of memory. The tables stay as they were.
    pub fn add_local(
        &mut self,
        table64: bool,
        initial: u64,
        maximum: Option<u64>,
        element_ty: RefType,
    ) -> Result<TableId, AllocError>
        ensures id { IfOk result (λ id. id ≡ next_id self.old) }
        ensures added { IfOk result (λ id. Adds (IsTable id table64 initial maximum element_ty None None) self.old self.new) }
        ensures room { self.old.room ≤ self.new.room + 1 }
        ensures succeeds { 0 < self.old.room → IsOk result }
        ensures refused { OnErr result (self.new ≡ self.old) }
    {
        self.add_local_with_init(table64, initial, maximum, element_ty, None)
    }

    /// Adds a table of the module's own, whose elements are this at first, or null, and gives its id.
    ///
    /// # Errors
    ///
    /// Want of memory. The tables stay as they were.
    pub fn add_local_with_init(
        &mut self,
        table64: bool,
        initial: u64,
        maximum: Option<u64>,
        element_ty: RefType,
        init: Option<ConstExpr>,
    ) -> Result<TableId, AllocError>
        ensures id { IfOk result (λ id. id ≡ next_id self.old) }
        ensures added { IfOk result (λ id. Adds (IsTable id table64 initial maximum element_ty init None) self.old self.new) }
        ensures room { self.old.room ≤ self.new.room + 1 }
        ensures succeeds { 0 < self.old.room → IsOk result }
        ensures refused { OnErr result (self.new ≡ self.old) }
    {
        self.reserve(1)?;
        let id = self.next_id();
        let mut table = Table::new(self.alloc(), id, table64, initial, maximum, element_ty);
        table.init = init;
        Ok(self.push_reserved(table))
    }

    /// The one table of nullable references to functions, if there is one. Goes through the tables.
    ///
    /// # Errors
    ///
    /// `Several` where there are several.
    pub fn main_function_table(&self) -> ModuleResult<Option<TableId>>
        ensures { result ≡ at_most_one (ids_of is_function_table self.now) }
    {
        let mut found = None;
        for (id, table) in self.entries() {
            if table.element_ty == RefType::FUNCREF {
                if found.is_some() {
                    return Err(ModuleError::Several);
                }
                found = Some(id);
            }
        }
        Ok(found)
    }
}
