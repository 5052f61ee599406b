//! Plain table and memory instructions, one call each.
ghost use Rattle.walrus_builder.specs.Built.{pushes, Edits};

use crate::seq_builder::InstrSeqBuilder;
use std::alloc::AllocError;
use walrus_arena::{DataId, ElementId, MemoryId, TableId};
use walrus_walks::instr::{
    AtomicOp, AtomicWidth, Instr, LoadKind, LoadSimdKind, MemArg, StoreKind,
};

impl InstrSeqBuilder {
    /// Appends `table.get`.
    ///
    /// # Errors
    ///
    /// Want of memory. The sequences stay as they were.
    pub fn table_get(&mut self, table: TableId) -> Result<(), AllocError>
        ensures { Edits self.old (pushes (Instr.TableGet table)) result self.new }
    {
        self.instr(Instr::TableGet { table })
    }

    /// Appends `table.set`.
    ///
    /// # Errors
    ///
    /// Want of memory. The sequences stay as they were.
    pub fn table_set(&mut self, table: TableId) -> Result<(), AllocError>
        ensures { Edits self.old (pushes (Instr.TableSet table)) result self.new }
    {
        self.instr(Instr::TableSet { table })
    }

    /// Appends `table.grow`.
    ///
    /// # Errors
    ///
    /// Want of memory. The sequences stay as they were.
    pub fn table_grow(&mut self, table: TableId) -> Result<(), AllocError>
        ensures { Edits self.old (pushes (Instr.TableGrow table)) result self.new }
    {
        self.instr(Instr::TableGrow { table })
    }

    /// Appends `table.size`.
    ///
    /// # Errors
    ///
    /// Want of memory. The sequences stay as they were.
    pub fn table_size(&mut self, table: TableId) -> Result<(), AllocError>
        ensures { Edits self.old (pushes (Instr.TableSize table)) result self.new }
    {
        self.instr(Instr::TableSize { table })
    }

    /// Appends `table.fill`.
    ///
    /// # Errors
    ///
    /// Want of memory. The sequences stay as they were.
    pub fn table_fill(&mut self, table: TableId) -> Result<(), AllocError>
        ensures { Edits self.old (pushes (Instr.TableFill table)) result self.new }
    {
        self.instr(Instr::TableFill { table })
    }

    /// Appends `table.init`.
    ///
    /// # Errors
    ///
    /// Want of memory. The sequences stay as they were.
    pub fn table_init(&mut self, table: TableId, elem: ElementId) -> Result<(), AllocError>
        ensures { Edits self.old (pushes (Instr.TableInit table elem)) result self.new }
    {
        self.instr(Instr::TableInit { table, elem })
    }

    /// Appends `elem.drop`.
    ///
    /// # Errors
    ///
    /// Want of memory. The sequences stay as they were.
    pub fn elem_drop(&mut self, elem: ElementId) -> Result<(), AllocError>
        ensures { Edits self.old (pushes (Instr.ElemDrop elem)) result self.new }
    {
        self.instr(Instr::ElemDrop { elem })
    }

    /// Appends `table.copy`.
    ///
    /// # Errors
    ///
    /// Want of memory. The sequences stay as they were.
    pub fn table_copy(&mut self, src: TableId, dst: TableId) -> Result<(), AllocError>
        ensures { Edits self.old (pushes (Instr.TableCopy src dst)) result self.new }
    {
        self.instr(Instr::TableCopy { src, dst })
    }

    /// Appends a load.
    ///
    /// # Errors
    ///
    /// Want of memory. The sequences stay as they were.
    pub fn load(&mut self, memory: MemoryId, kind: LoadKind, arg: MemArg) -> Result<(), AllocError>
        ensures { Edits self.old (pushes (Instr.Load memory kind arg)) result self.new }
    {
        self.instr(Instr::Load { memory, kind, arg })
    }

    /// Appends a store.
    ///
    /// # Errors
    ///
    /// Want of memory. The sequences stay as they were.
    pub fn store(
        &mut self,
        memory: MemoryId,
        kind: StoreKind,
        arg: MemArg,
    ) -> Result<(), AllocError>
        ensures { Edits self.old (pushes (Instr.Store memory kind arg)) result self.new }
    {
        self.instr(Instr::Store { memory, kind, arg })
    }

    /// Appends a vector access by lanes.
    ///
    /// # Errors
    ///
    /// Want of memory. The sequences stay as they were.
    pub fn load_simd(
        &mut self,
        memory: MemoryId,
        kind: LoadSimdKind,
        arg: MemArg,
    ) -> Result<(), AllocError>
        ensures { Edits self.old (pushes (Instr.LoadSimd memory kind arg)) result self.new }
    {
        self.instr(Instr::LoadSimd { memory, kind, arg })
    }

    /// Appends `memory.size`.
    ///
    /// # Errors
    ///
    /// Want of memory. The sequences stay as they were.
    pub fn memory_size(&mut self, memory: MemoryId) -> Result<(), AllocError>
        ensures { Edits self.old (pushes (Instr.MemorySize memory)) result self.new }
    {
        self.instr(Instr::MemorySize { memory })
    }

    /// Appends `memory.grow`.
    ///
    /// # Errors
    ///
    /// Want of memory. The sequences stay as they were.
    pub fn memory_grow(&mut self, memory: MemoryId) -> Result<(), AllocError>
        ensures { Edits self.old (pushes (Instr.MemoryGrow memory)) result self.new }
    {
        self.instr(Instr::MemoryGrow { memory })
    }

    /// Appends `memory.init`.
    ///
    /// # Errors
    ///
    /// Want of memory. The sequences stay as they were.
    pub fn memory_init(&mut self, memory: MemoryId, data: DataId) -> Result<(), AllocError>
        ensures { Edits self.old (pushes (Instr.MemoryInit memory «data»)) result self.new }
    {
        self.instr(Instr::MemoryInit { memory, data })
    }

    /// Appends `data.drop`.
    ///
    /// # Errors
    ///
    /// Want of memory. The sequences stay as they were.
    pub fn data_drop(&mut self, data: DataId) -> Result<(), AllocError>
        ensures { Edits self.old (pushes (Instr.DataDrop «data»)) result self.new }
    {
        self.instr(Instr::DataDrop { data })
    }

    /// Appends `memory.copy`.
    ///
    /// # Errors
    ///
    /// Want of memory. The sequences stay as they were.
    pub fn memory_copy(&mut self, src: MemoryId, dst: MemoryId) -> Result<(), AllocError>
        ensures { Edits self.old (pushes (Instr.MemoryCopy src dst)) result self.new }
    {
        self.instr(Instr::MemoryCopy { src, dst })
    }

    /// Appends `memory.fill`.
    ///
    /// # Errors
    ///
    /// Want of memory. The sequences stay as they were.
    pub fn memory_fill(&mut self, memory: MemoryId) -> Result<(), AllocError>
        ensures { Edits self.old (pushes (Instr.MemoryFill memory)) result self.new }
    {
        self.instr(Instr::MemoryFill { memory })
    }

    /// Appends an atomic change.
    ///
    /// # Errors
    ///
    /// Want of memory. The sequences stay as they were.
    pub fn atomic_rmw(
        &mut self,
        memory: MemoryId,
        op: AtomicOp,
        width: AtomicWidth,
        arg: MemArg,
    ) -> Result<(), AllocError>
        ensures { Edits self.old (pushes (Instr.AtomicRmw memory op width arg)) result self.new }
    {
        self.instr(Instr::AtomicRmw {
            memory,
            op,
            width,
            arg,
        })
    }

    /// Appends an atomic compare and exchange.
    ///
    /// # Errors
    ///
    /// Want of memory. The sequences stay as they were.
    pub fn cmpxchg(
        &mut self,
        memory: MemoryId,
        width: AtomicWidth,
        arg: MemArg,
    ) -> Result<(), AllocError>
        ensures { Edits self.old (pushes (Instr.Cmpxchg memory width arg)) result self.new }
    {
        self.instr(Instr::Cmpxchg { memory, width, arg })
    }

    /// Appends `memory.atomic.notify`.
    ///
    /// # Errors
    ///
    /// Want of memory. The sequences stay as they were.
    pub fn atomic_notify(&mut self, memory: MemoryId, arg: MemArg) -> Result<(), AllocError>
        ensures { Edits self.old (pushes (Instr.AtomicNotify memory arg)) result self.new }
    {
        self.instr(Instr::AtomicNotify { memory, arg })
    }

    /// Appends `memory.atomic.wait32`, or `wait64`.
    ///
    /// # Errors
    ///
    /// Want of memory. The sequences stay as they were.
    pub fn atomic_wait(
        &mut self,
        memory: MemoryId,
        arg: MemArg,
        sixty_four: bool,
    ) -> Result<(), AllocError>
        ensures { Edits self.old (pushes (Instr.AtomicWait memory arg sixty_four)) result self.new }
    {
        self.instr(Instr::AtomicWait {
            memory,
            arg,
            sixty_four,
        })
    }

    /// Appends `atomic.fence`.
    ///
    /// # Errors
    ///
    /// Want of memory. The sequences stay as they were.
    pub fn atomic_fence(&mut self) -> Result<(), AllocError>
        ensures { Edits self.old (pushes Instr.AtomicFence) result self.new }
    {
        self.instr(Instr::AtomicFence)
    }
}
