//! The data and element segments of a module.
ghost use Rattle.std.specs.Prelude.{◌≡◌, ◌<◌, ◌+◌, ◌≤◌, [], ◌∷◌, ◌++◌, IfOk, OnErr, None, Some, IsOk};
ghost use Rattle.walrus_arena.specs.Arena.{next_id};

use crate::collection::Collection;
use std::alloc::AllocError;
use walrus_arena::{DataId, DataSpace, ElementId, ElementSpace};
use walrus_module_items::{Data, DataKind, Element, ElementItems, ElementKind};

/// The data segments of a module.
pub type ModuleData = Collection<Data, DataSpace>;

impl Collection<Data, DataSpace> {
    /// Adds a data segment, and gives its id. An active one belongs to its memory by naming it.
    ///
    /// # Errors
    ///
    /// Want of memory. The segments stay as they were.
    pub fn add(&mut self, kind: DataKind, value: Vec<u8>) -> Result<DataId, AllocError>
        ensures id { IfOk result (λ id. id ≡ next_id self.old) }
        ensures added { IfOk result (λ id. self.new.slots ≡ self.old.slots ++ Some (record { id = id; kind = kind; value = value; name = None }) ∷ []) }
        ensures room { self.old.room ≤ self.new.room + 1 }
        ensures succeeds { 0 < self.old.room → IsOk result }
        ensures refused { OnErr result (self.new ≡ self.old) }
    {
        self.reserve(1)?;
        let id = self.next_id();
        Ok(self.push_reserved(Data::new(id, kind, value)))
    }
}

/// The element segments of a module.
pub type ModuleElements = Collection<Element, ElementSpace>;

impl Collection<Element, ElementSpace> {
    /// Adds an element segment, and gives its id. An active one belongs to its table by naming it.
    ///
    /// # Errors
    ///
    /// Want of memory. The segments stay as they were.
    pub fn add(&mut self, kind: ElementKind, items: ElementItems) -> Result<ElementId, AllocError>
        ensures id { IfOk result (λ id. id ≡ next_id self.old) }
        ensures added { IfOk result (λ id. self.new.slots ≡ self.old.slots ++ Some (record { id = id; kind = kind; items = items; name = None }) ∷ []) }
        ensures room { self.old.room ≤ self.new.room + 1 }
        ensures succeeds { 0 < self.old.room → IsOk result }
        ensures refused { OnErr result (self.new ≡ self.old) }
    {
        self.reserve(1)?;
        let id = self.next_id();
        Ok(self.push_reserved(Element::new(id, kind, items)))
    }
}
