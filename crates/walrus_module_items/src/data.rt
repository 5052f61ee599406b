//! Data segments.
ghost use Rattle.std.specs.Prelude.{◌≡◌, ◌↔◌, IsTrue, None, IfOk};
ghost use Rattle.walrus_module_items.specs.declared.data.DataKind.TheVariants.{Passive};
ghost use Rattle.walrus_module_items.specs.Copies.{IsDataCopy, IsDataKindCopy};

use std::alloc::AllocError;
use walrus_arena::{DataId, MemoryId, Tombstone};
use walrus_instr::ConstExpr;

/// When a data segment is copied.
#[derive(Drop)]
pub enum DataKind {
    /// At instantiation, into this memory at this offset.
    Active { memory: MemoryId, offset: ConstExpr },
    /// Where an instruction says so.
    Passive,
}

/// A data segment (Core Specification, data segments).
#[derive(Drop)]
pub struct Data {
    id: DataId,
    /// When it is copied.
    pub kind: DataKind,
    /// Its bytes.
    pub value: Vec<u8>,
    /// The name that is written for it.
    pub name: Option<String>,
}

impl Tombstone for Data {
    fn on_delete(&mut self) {}
}

impl DataKind {
    /// An equal kind.
    ///
    /// # Errors
    ///
    /// Want of memory.
    pub fn clone(&self) -> Result<Self, AllocError>
        ensures { IfOk result (λ copy. IsDataKindCopy self.now copy) }
    {
        match self {
            DataKind::Active { memory, offset } => Ok(DataKind::Active {
                memory: *memory,
                offset: offset.clone()?,
            }),
            DataKind::Passive => Ok(DataKind::Passive),
        }
    }
}

impl Data {
    /// A segment of this id, without a name.
    pub fn new(id: DataId, kind: DataKind, value: Vec<u8>) -> Self
        ensures { result ≡ record { id = id; kind = kind; value = value; name = None } }
    {
        Data {
            id,
            kind,
            value,
            name: None,
        }
    }

    /// Its id.
    pub fn id(&self) -> DataId
        ensures { result ≡ self.now.id }
    {
        self.id
    }

    /// Whether it is copied where an instruction says so.
    pub fn is_passive(&self) -> bool
        ensures { IsTrue result ↔ (self.now.kind ≡ Passive) }
    {
        matches!(self.kind, DataKind::Passive)
    }

    /// An equal segment, of the same id.
    ///
    /// # Errors
    ///
    /// Want of memory.
    pub fn clone(&self) -> Result<Self, AllocError>
        ensures { IfOk result (λ copy. IsDataCopy self.now copy) }
    {
        Ok(Data {
            id: self.id,
            kind: self.kind.clone()?,
            value: self.value.clone()?,
            name: self.name.clone()?,
        })
    }
}
