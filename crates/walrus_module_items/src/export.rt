//! Exports.
ghost use Rattle.std.specs.Prelude.{◌≡◌, IfOk};
ghost use Rattle.walrus_module_items.specs.declared.export.ExportItem.TheVariants as items;
ghost use Rattle.walrus_module_items.specs.Copies.{IsTextCopy};

use std::alloc::AllocError;
use walrus_arena::{ExportId, FunctionId, GlobalId, MemoryId, TableId, TagId, Tombstone};

/// What an export gives out of the module.
#[derive(Clone, Copy, PartialEq, Eq, Hash)]
pub enum ExportItem {
    Function(FunctionId),
    Table(TableId),
    Memory(MemoryId),
    Global(GlobalId),
    Tag(TagId),
}

/// An export (Core Specification, exports): an item and the name under which it is given out.
#[derive(Drop)]
pub struct Export {
    id: ExportId,
    /// The name.
    pub name: String,
    /// The item.
    pub item: ExportItem,
}

impl Tombstone for Export {
    fn on_delete(&mut self) {}
}

impl Export {
    /// An export of this id.
    pub fn new(id: ExportId, name: String, item: ExportItem) -> Self
        ensures { result ≡ record { id = id; name = name; item = item } }
    {
        Export { id, name, item }
    }

    /// Its id.
    pub fn id(&self) -> ExportId
        ensures { result ≡ self.now.id }
    {
        self.id
    }

    /// An equal export, of the same id.
    ///
    /// # Errors
    ///
    /// Want of memory.
    pub fn clone(&self) -> Result<Self, AllocError>
        ensures id { IfOk result (λ copy. copy.id ≡ self.now.id) }
        ensures name { IfOk result (λ copy. IsTextCopy self.now.name copy.name) }
        ensures item { IfOk result (λ copy. copy.item ≡ self.now.item) }
    {
        Ok(Export {
            id: self.id,
            name: self.name.clone()?,
            item: self.item,
        })
    }
}

impl From<FunctionId> for ExportItem {
    ghost from_gives = { λ id item. item ≡ items.Function id };

    fn from(id: FunctionId) -> Self {
        ExportItem::Function(id)
    }
}

impl From<TableId> for ExportItem {
    ghost from_gives = { λ id item. item ≡ items.Table id };

    fn from(id: TableId) -> Self {
        ExportItem::Table(id)
    }
}

impl From<MemoryId> for ExportItem {
    ghost from_gives = { λ id item. item ≡ items.Memory id };

    fn from(id: MemoryId) -> Self {
        ExportItem::Memory(id)
    }
}

impl From<GlobalId> for ExportItem {
    ghost from_gives = { λ id item. item ≡ items.Global id };

    fn from(id: GlobalId) -> Self {
        ExportItem::Global(id)
    }
}

impl From<TagId> for ExportItem {
    ghost from_gives = { λ id item. item ≡ items.Tag id };

    fn from(id: TagId) -> Self {
        ExportItem::Tag(id)
    }
}
