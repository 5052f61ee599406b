//! The memories of a module.
ghost use Rattle.std.specs.Prelude.{◌≡◌, ◌<◌, ◌+◌, ◌≤◌, ◌==◌, IfOk, OnOk, OnErr, None, Some, IsOk};
ghost use Rattle.walrus_arena.specs.Arena.{next_id, live_count};
ghost use Rattle.walrus_collections.specs.Added.{Adds, IsMemory};

use crate::collection::Collection;
use std::alloc::AllocError;
use walrus_arena::{ImportId, MemoryId, MemorySpace};
use walrus_module_items::Memory;

/// The memories of a module.
pub type ModuleMemories = Collection<Memory, MemorySpace>;

impl Collection<Memory, MemorySpace> {
    /// Adds a memory that this import brings, and gives its id. The import is to name the memory, too.
    /// Sizes are in pages.
    ///
    /// # Errors
    ///
    /// Want of memory. The memories stay as they were.
    pub fn add_import(
        &mut self,
        shared: bool,
        memory64: bool,
        initial: u64,
        maximum: Option<u64>,
        page_size_log2: Option<u32>,
        import: ImportId,
    ) -> Result<MemoryId, AllocError>
        ensures id { IfOk result (λ id. id ≡ next_id self.old) }
        ensures added { IfOk result (λ id. Adds (IsMemory id shared memory64 initial maximum page_size_log2 (Some import)) self.old self.new) }
        ensures room { self.old.room ≤ self.new.room + 1 }
        ensures succeeds { 0 < self.old.room → IsOk result }
        ensures refused { OnErr result (self.new ≡ self.old) }
    {
        self.reserve(1)?;
        let id = self.next_id();
        let mut memory = Memory::new(
            self.alloc(),
            id,
            shared,
            memory64,
            initial,
            maximum,
            page_size_log2,
        );
        memory.import = Some(import);
        Ok(self.push_reserved(memory))
    }

    /// Adds a memory of the module's own, and gives its id. Sizes are in pages.
    ///
    /// # Errors
    ///
    /// Want of memory. The memories stay as they were.
    pub fn add_local(
        &mut self,
        shared: bool,
        memory64: bool,
        initial: u64,
        maximum: Option<u64>,
        page_size_log2: Option<u32>,
    ) -> Result<MemoryId, AllocError>
        ensures id { IfOk result (λ id. id ≡ next_id self.old) }
        ensures added { IfOk result (λ id. Adds (IsMemory id shared memory64 initial maximum page_size_log2 None) self.old self.new) }
        ensures room { self.old.room ≤ self.new.room + 1 }
        ensures succeeds { 0 < self.old.room → IsOk result }
        ensures refused { OnErr result (self.new ≡ self.old) }
    {
        self.reserve(1)?;
        let id = self.next_id();
        Ok(self.push_reserved(Memory::new(
            self.alloc(),
            id,
            shared,
            memory64,
            initial,
            maximum,
            page_size_log2,
        )))
    }

    /// How many memories live.
    pub fn len(&self) -> usize
        ensures { result ≡ live_count self.now }
    {
        self.live_count()
    }

    /// Whether no memory lives.
    pub fn is_empty(&self) -> bool
        ensures { result ≡ (live_count self.now == 0) }
    {
        self.len() == 0
    }
}
