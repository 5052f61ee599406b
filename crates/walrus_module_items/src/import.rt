//! Imports.
ghost use Rattle.std.specs.Prelude.{◌≡◌, IfOk};
ghost use Rattle.walrus_module_items.specs.declared.import.ImportKind.TheVariants as kinds;
ghost use Rattle.walrus_module_items.specs.Copies.{IsTextCopy};

use std::alloc::AllocError;
use walrus_arena::{FunctionId, GlobalId, ImportId, MemoryId, TableId, TagId, Tombstone};

/// What an import brings into the module.
#[derive(Clone, Copy, PartialEq, Eq, Hash)]
pub enum ImportKind {
    Function(FunctionId),
    Table(TableId),
    Memory(MemoryId),
    Global(GlobalId),
    Tag(TagId),
}

/// An import (Core Specification, imports): the names under which an item is asked for, and that item.
///
/// Imports are equal and hashed by all their fields.
#[derive(PartialEq, Eq, Hash, Drop)]
pub struct Import {
    id: ImportId,
    /// The name of the module that the item is asked of.
    pub module: String,
    /// The item's name there.
    pub name: String,
    /// The item.
    pub kind: ImportKind,
}

impl Tombstone for Import {
    fn on_delete(&mut self) {}
}

impl Import {
    /// An import of this id.
    pub fn new(id: ImportId, module: String, name: String, kind: ImportKind) -> Self
        ensures { result ≡ record { id = id; «module» = «module»; name = name; kind = kind } }
    {
        Import {
            id,
            module,
            name,
            kind,
        }
    }

    /// Its id.
    pub fn id(&self) -> ImportId
        ensures { result ≡ self.now.id }
    {
        self.id
    }

    /// An equal import, of the same id.
    ///
    /// # Errors
    ///
    /// Want of memory.
    pub fn clone(&self) -> Result<Self, AllocError>
        ensures id { IfOk result (λ copy. copy.id ≡ self.now.id) }
        ensures names { IfOk result (λ copy. IsTextCopy self.now.«module» copy.«module» × IsTextCopy self.now.name copy.name) }
        ensures kind { IfOk result (λ copy. copy.kind ≡ self.now.kind) }
    {
        Ok(Import {
            id: self.id,
            module: self.module.clone()?,
            name: self.name.clone()?,
            kind: self.kind,
        })
    }
}

impl From<FunctionId> for ImportKind {
    ghost from_gives = { λ id kind. kind ≡ kinds.Function id };

    fn from(id: FunctionId) -> Self {
        ImportKind::Function(id)
    }
}

impl From<TableId> for ImportKind {
    ghost from_gives = { λ id kind. kind ≡ kinds.Table id };

    fn from(id: TableId) -> Self {
        ImportKind::Table(id)
    }
}

impl From<MemoryId> for ImportKind {
    ghost from_gives = { λ id kind. kind ≡ kinds.Memory id };

    fn from(id: MemoryId) -> Self {
        ImportKind::Memory(id)
    }
}

impl From<GlobalId> for ImportKind {
    ghost from_gives = { λ id kind. kind ≡ kinds.Global id };

    fn from(id: GlobalId) -> Self {
        ImportKind::Global(id)
    }
}

impl From<TagId> for ImportKind {
    ghost from_gives = { λ id kind. kind ≡ kinds.Tag id };

    fn from(id: TagId) -> Self {
        ImportKind::Tag(id)
    }
}
