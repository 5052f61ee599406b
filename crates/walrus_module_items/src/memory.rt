//! Memories.
ghost use Rattle.std.specs.Prelude.{◌≡◌, IfOk};
ghost use Rattle.walrus_module_items.specs.Copies.{IsMemoryCopy};
ghost use Rattle.walrus_module_items.specs.New.{IsNewMemory};

use std::alloc::{AllocError, Global};
use walrus_arena::{DataSpace, IdHashSet, ImportId, MemoryId, Tombstone};

/// A memory (Core Specification, memories).
#[derive(Drop)]
pub struct Memory {
    id: MemoryId,
    /// Whether several threads may use it.
    pub shared: bool,
    /// Whether its addresses have 64 bits.
    pub memory64: bool,
    /// How many pages it has at first.
    pub initial: u64,
    /// How many it may have, where there is a bound.
    pub maximum: Option<u64>,
    /// The logarithm of the size of its pages in bytes, to base 2, where that is written.
    pub page_size_log2: Option<u32>,
    /// The import that brings it into the module, if one does.
    pub import: Option<ImportId>,
    /// Data segments that are active in it, beside those that name it.
    pub data_segments: IdHashSet<DataSpace>,
    /// The name that is written for it.
    pub name: Option<String>,
}

impl Tombstone for Memory {
    fn on_delete(&mut self) {}
}

impl Memory {
    /// A memory of this id, without import, segments and name. Takes no memory.
    pub fn new(
        alloc: Global,
        id: MemoryId,
        shared: bool,
        memory64: bool,
        initial: u64,
        maximum: Option<u64>,
        page_size_log2: Option<u32>,
    ) -> Self
        ensures { IsNewMemory id shared memory64 initial maximum page_size_log2 result }
    {
        Memory {
            id,
            shared,
            memory64,
            initial,
            maximum,
            page_size_log2,
            import: None,
            data_segments: IdHashSet::new(alloc),
            name: None,
        }
    }

    /// Its id.
    pub fn id(&self) -> MemoryId
        ensures { result ≡ self.now.id }
    {
        self.id
    }

    /// An equal memory, of the same id.
    ///
    /// # Errors
    ///
    /// Want of memory.
    pub fn clone(&self) -> Result<Self, AllocError>
        ensures { IfOk result (λ copy. IsMemoryCopy self.now copy) }
    {
        Ok(Memory {
            id: self.id,
            shared: self.shared,
            memory64: self.memory64,
            initial: self.initial,
            maximum: self.maximum,
            page_size_log2: self.page_size_log2,
            import: self.import,
            data_segments: self.data_segments.clone()?,
            name: self.name.clone()?,
        })
    }
}
