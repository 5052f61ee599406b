//! The items that custom sections keep.
ghost use Rattle.std.specs.Prelude.{◌≡◌, [], ◌∷◌, ◌++◌, IfOk, OnOk, OnErr};
ghost use Rattle.wasm_formats.specs.declared.fault.Space.TheVariants as spaces;
ghost use Rattle.walrus_roots.specs.Items.{item, IsShared, PushesShared};

use crate::item::Item;
use std::alloc::{AllocError, Global};
use std::marker::Model;
use walrus_arena::{FunctionId, GlobalId, MemoryId, TableId, TagId};
use wasm_formats::Space;

/// Items that are to be kept, whatever names them: what custom sections add to the roots of a module.
#[derive(Drop)]
pub struct Roots {
    items: Vec<Item>,
}

impl Model for Roots {
    ghost use Rattle.std.specs.Prelude.{List};
    ghost use Rattle.walrus_roots.specs.declared.item.Item.{Item};
    ghost use Rattle.walrus_roots.specs.Items.{PushesShared};

    ghost Value = { List Item };

    ghost view = { λ r. r.items.items };

    ghost invariant = { λ r. PushesShared r.items.items };
}

impl Roots {
    /// No items. Takes no memory.
    pub fn new(alloc: Global) -> Self
        ensures { result ≡ [] }
    {
        Roots {
            items: Vec::new(alloc),
        }
    }

    /// Equal ones.
    ///
    /// # Errors
    ///
    /// Want of memory.
    pub fn clone(&self) -> Result<Self, AllocError>
        ensures { IfOk result (λ copy. copy ≡ self.now) }
    {
        Ok(Roots {
            items: Vec::from_slice(*self.items.allocator(), self.items.as_slice())?,
        })
    }

    /// The items, in the order in which they were added. None is a local.
    pub fn items(&self) -> &[Item]
        ensures items { result.now ≡ self.now }
        ensures shared { PushesShared result.now }
    {
        self.items.as_slice()
    }

    fn push(&mut self, item: Item) -> Result<(), AllocError>
        requires { IsShared «item» }
        ensures added { OnOk result (self.new ≡ self.old ++ «item» ∷ []) }
        ensures refused { OnErr result (self.new ≡ self.old) }
    {
        self.items.push(item)?;
        Ok(())
    }

    /// Adds a function.
    ///
    /// # Errors
    ///
    /// Want of memory. The roots stay as they were.
    pub fn push_func(&mut self, id: FunctionId) -> Result<(), AllocError>
        ensures added { OnOk result (self.new ≡ self.old ++ item spaces.Function id ∷ []) }
        ensures refused { OnErr result (self.new ≡ self.old) }
    {
        self.push(Item::new(Space::Function, id))
    }

    /// Adds a table.
    ///
    /// # Errors
    ///
    /// Want of memory. The roots stay as they were.
    pub fn push_table(&mut self, id: TableId) -> Result<(), AllocError>
        ensures added { OnOk result (self.new ≡ self.old ++ item spaces.Table id ∷ []) }
        ensures refused { OnErr result (self.new ≡ self.old) }
    {
        self.push(Item::new(Space::Table, id))
    }

    /// Adds a memory.
    ///
    /// # Errors
    ///
    /// Want of memory. The roots stay as they were.
    pub fn push_memory(&mut self, id: MemoryId) -> Result<(), AllocError>
        ensures added { OnOk result (self.new ≡ self.old ++ item spaces.Memory id ∷ []) }
        ensures refused { OnErr result (self.new ≡ self.old) }
    {
        self.push(Item::new(Space::Memory, id))
    }

    /// Adds a global.
    ///
    /// # Errors
    ///
    /// Want of memory. The roots stay as they were.
    pub fn push_global(&mut self, id: GlobalId) -> Result<(), AllocError>
        ensures added { OnOk result (self.new ≡ self.old ++ item spaces.Global id ∷ []) }
        ensures refused { OnErr result (self.new ≡ self.old) }
    {
        self.push(Item::new(Space::Global, id))
    }

    /// Adds a tag.
    ///
    /// # Errors
    ///
    /// Want of memory. The roots stay as they were.
    pub fn push_tag(&mut self, id: TagId) -> Result<(), AllocError>
        ensures added { OnOk result (self.new ≡ self.old ++ item spaces.Tag id ∷ []) }
        ensures refused { OnErr result (self.new ≡ self.old) }
    {
        self.push(Item::new(Space::Tag, id))
    }
}
