//! Adding imports with their items. All memory is taken before anything is added, so that a refused call adds neither.
ghost use Rattle.std.specs.Prelude.{◌≡◌, ◌≤◌, ◌+◌, [], ◌∷◌, ◌++◌, IfOk, OnErr, None, Some};
ghost use Rattle.walrus_arena.specs.Arena.{next_id};
ghost use Rattle.walrus_collections.specs.walrus_module_items.declared.import.ImportKind.TheVariants as kinds;
ghost use Rattle.walrus_collections.specs.walrus_module_items.declared.function.FunctionKind.TheVariants as functions;
ghost use Rattle.walrus_collections.specs.walrus_module_items.declared.global.GlobalKind.TheVariants as globals;
ghost use Rattle.walrus_collections.specs.walrus_module_items.declared.tag.TagKind.TheVariants as tags;
ghost use Rattle.walrus_collections.specs.Added.{Adds, IsImport, IsTable, IsMemory};

use crate::module::Module;
use std::alloc::AllocError;
use walrus_arena::{FunctionId, GlobalId, ImportId, MemoryId, TableId, TagId, TypeId};
use walrus_collections::module_items::ImportKind;
use walrus_forms::{RefType, ValType};

impl<B> Module<B> {
    /// Adds a function of this type and the import that brings it, and gives the ids of both.
    ///
    /// # Errors
    ///
    /// Want of memory. Neither is added.
    pub fn add_import_func(
        &mut self,
        module: &str,
        name: &str,
        ty: TypeId,
    ) -> Result<(FunctionId, ImportId), AllocError>
        ensures ids { IfOk result (λ ids. (ids.0 ≡ next_id self.old.funcs) × (ids.1 ≡ next_id self.old.imports)) }
        ensures item { IfOk result (λ ids. self.new.funcs.slots ≡ self.old.funcs.slots ++ Some (record { id = ids.0; kind = functions.Import (record { import = ids.1; ty = ty }); name = None }) ∷ []) }
        ensures import_ { IfOk result (λ ids. Adds (IsImport ids.1 «module».now name.now (kinds.Function ids.0)) self.old.imports self.new.imports) }
        ensures rest { self.new ≡ record self.old { imports = self.new.imports; funcs = self.new.funcs } }
        ensures room_import { self.old.imports.room ≤ self.new.imports.room + 1 }
        ensures room_item { self.old.funcs.room ≤ self.new.funcs.room + 1 }
        ensures refused_import { OnErr result (self.new.imports.slots ≡ self.old.imports.slots) }
        ensures refused_room { OnErr result (self.old.imports.room ≤ self.new.imports.room) }
        ensures refused_item { OnErr result (self.new.funcs ≡ self.old.funcs) }
    {
        let module = self.imports.text(module)?;
        let name = self.imports.text(name)?;
        self.imports.reserve(1)?;
        let import = self.imports.next_id();
        let function = self.funcs.add_import(ty, import)?;
        self.imports
            .add_reserved(module, name, ImportKind::Function(function));
        Ok((function, import))
    }

    /// Adds a memory and the import that brings it, and gives the ids of both. Sizes are in pages.
    ///
    /// # Errors
    ///
    /// Want of memory. Neither is added.
    pub fn add_import_memory(
        &mut self,
        module: &str,
        name: &str,
        shared: bool,
        memory64: bool,
        initial: u64,
        maximum: Option<u64>,
        page_size_log2: Option<u32>,
    ) -> Result<(MemoryId, ImportId), AllocError>
        ensures ids { IfOk result (λ ids. (ids.0 ≡ next_id self.old.memories) × (ids.1 ≡ next_id self.old.imports)) }
        ensures item { IfOk result (λ ids. Adds (IsMemory ids.0 shared memory64 initial maximum page_size_log2 (Some ids.1)) self.old.memories self.new.memories) }
        ensures import_ { IfOk result (λ ids. Adds (IsImport ids.1 «module».now name.now (kinds.Memory ids.0)) self.old.imports self.new.imports) }
        ensures rest { self.new ≡ record self.old { imports = self.new.imports; memories = self.new.memories } }
        ensures room_import { self.old.imports.room ≤ self.new.imports.room + 1 }
        ensures room_item { self.old.memories.room ≤ self.new.memories.room + 1 }
        ensures refused_import { OnErr result (self.new.imports.slots ≡ self.old.imports.slots) }
        ensures refused_room { OnErr result (self.old.imports.room ≤ self.new.imports.room) }
        ensures refused_item { OnErr result (self.new.memories ≡ self.old.memories) }
    {
        let module = self.imports.text(module)?;
        let name = self.imports.text(name)?;
        self.imports.reserve(1)?;
        let import = self.imports.next_id();
        let memory = self
            .memories
            .add_import(shared, memory64, initial, maximum, page_size_log2, import)?;
        self.imports
            .add_reserved(module, name, ImportKind::Memory(memory));
        Ok((memory, import))
    }

    /// Adds a table and the import that brings it, and gives the ids of both.
    ///
    /// # Errors
    ///
    /// Want of memory. Neither is added.
    pub fn add_import_table(
        &mut self,
        module: &str,
        name: &str,
        table64: bool,
        initial: u64,
        maximum: Option<u64>,
        element_ty: RefType,
    ) -> Result<(TableId, ImportId), AllocError>
        ensures ids { IfOk result (λ ids. (ids.0 ≡ next_id self.old.tables) × (ids.1 ≡ next_id self.old.imports)) }
        ensures item { IfOk result (λ ids. Adds (IsTable ids.0 table64 initial maximum element_ty None (Some ids.1)) self.old.tables self.new.tables) }
        ensures import_ { IfOk result (λ ids. Adds (IsImport ids.1 «module».now name.now (kinds.Table ids.0)) self.old.imports self.new.imports) }
        ensures rest { self.new ≡ record self.old { imports = self.new.imports; tables = self.new.tables } }
        ensures room_import { self.old.imports.room ≤ self.new.imports.room + 1 }
        ensures room_item { self.old.tables.room ≤ self.new.tables.room + 1 }
        ensures refused_import { OnErr result (self.new.imports.slots ≡ self.old.imports.slots) }
        ensures refused_room { OnErr result (self.old.imports.room ≤ self.new.imports.room) }
        ensures refused_item { OnErr result (self.new.tables ≡ self.old.tables) }
    {
        let module = self.imports.text(module)?;
        let name = self.imports.text(name)?;
        self.imports.reserve(1)?;
        let import = self.imports.next_id();
        let table = self
            .tables
            .add_import(table64, initial, maximum, element_ty, import)?;
        self.imports
            .add_reserved(module, name, ImportKind::Table(table));
        Ok((table, import))
    }

    /// Adds a global and the import that brings it, and gives the ids of both.
    ///
    /// # Errors
    ///
    /// Want of memory. Neither is added.
    pub fn add_import_global(
        &mut self,
        module: &str,
        name: &str,
        ty: ValType,
        mutable: bool,
        shared: bool,
    ) -> Result<(GlobalId, ImportId), AllocError>
        ensures ids { IfOk result (λ ids. (ids.0 ≡ next_id self.old.globals) × (ids.1 ≡ next_id self.old.imports)) }
        ensures item { IfOk result (λ ids. self.new.globals.slots ≡ self.old.globals.slots ++ Some (record { id = ids.0; ty = ty; mutable = mutable; shared = shared; kind = globals.Import ids.1; name = None }) ∷ []) }
        ensures import_ { IfOk result (λ ids. Adds (IsImport ids.1 «module».now name.now (kinds.Global ids.0)) self.old.imports self.new.imports) }
        ensures rest { self.new ≡ record self.old { imports = self.new.imports; globals = self.new.globals } }
        ensures room_import { self.old.imports.room ≤ self.new.imports.room + 1 }
        ensures room_item { self.old.globals.room ≤ self.new.globals.room + 1 }
        ensures refused_import { OnErr result (self.new.imports.slots ≡ self.old.imports.slots) }
        ensures refused_room { OnErr result (self.old.imports.room ≤ self.new.imports.room) }
        ensures refused_item { OnErr result (self.new.globals ≡ self.old.globals) }
    {
        let module = self.imports.text(module)?;
        let name = self.imports.text(name)?;
        self.imports.reserve(1)?;
        let import = self.imports.next_id();
        let global = self.globals.add_import(ty, mutable, shared, import)?;
        self.imports
            .add_reserved(module, name, ImportKind::Global(global));
        Ok((global, import))
    }

    /// Adds a tag of this type and the import that brings it, and gives the ids of both.
    ///
    /// # Errors
    ///
    /// Want of memory. Neither is added.
    pub fn add_import_tag(
        &mut self,
        module: &str,
        name: &str,
        ty: TypeId,
    ) -> Result<(TagId, ImportId), AllocError>
        ensures ids { IfOk result (λ ids. (ids.0 ≡ next_id self.old.tags) × (ids.1 ≡ next_id self.old.imports)) }
        ensures item { IfOk result (λ ids. self.new.tags.slots ≡ self.old.tags.slots ++ Some (record { id = ids.0; ty = ty; kind = tags.Import ids.1; name = None }) ∷ []) }
        ensures import_ { IfOk result (λ ids. Adds (IsImport ids.1 «module».now name.now (kinds.Tag ids.0)) self.old.imports self.new.imports) }
        ensures rest { self.new ≡ record self.old { imports = self.new.imports; tags = self.new.tags } }
        ensures room_import { self.old.imports.room ≤ self.new.imports.room + 1 }
        ensures room_item { self.old.tags.room ≤ self.new.tags.room + 1 }
        ensures refused_import { OnErr result (self.new.imports.slots ≡ self.old.imports.slots) }
        ensures refused_room { OnErr result (self.old.imports.room ≤ self.new.imports.room) }
        ensures refused_item { OnErr result (self.new.tags ≡ self.old.tags) }
    {
        let module = self.imports.text(module)?;
        let name = self.imports.text(name)?;
        self.imports.reserve(1)?;
        let import = self.imports.next_id();
        let tag = self.tags.add_import(ty, import)?;
        self.imports
            .add_reserved(module, name, ImportKind::Tag(tag));
        Ok((tag, import))
    }
}
