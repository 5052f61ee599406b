//! Tables.
ghost use Rattle.std.specs.Prelude.{◌≡◌, IfOk};
ghost use Rattle.walrus_module_items.specs.Copies.{IsTableCopy};
ghost use Rattle.walrus_module_items.specs.New.{IsNewTable};

use std::alloc::{AllocError, Global};
use walrus_arena::{ElementSpace, IdHashSet, ImportId, TableId, Tombstone};
use walrus_forms::RefType;
use walrus_instr::ConstExpr;

/// A table (Core Specification, tables).
#[derive(Drop)]
pub struct Table {
    id: TableId,
    /// Whether its elements are counted in 64 bits.
    pub table64: bool,
    /// How many elements it has at first.
    pub initial: u64,
    /// How many it may have, where there is a bound.
    pub maximum: Option<u64>,
    /// The type of its elements.
    pub element_ty: RefType,
    /// What its elements are at first, where that isn't null.
    pub init: Option<ConstExpr>,
    /// The import that brings it into the module, if one does.
    pub import: Option<ImportId>,
    /// Element segments that are active in it, beside those that name it.
    pub elem_segments: IdHashSet<ElementSpace>,
    /// The name that is written for it.
    pub name: Option<String>,
}

impl Tombstone for Table {
    fn on_delete(&mut self) {}
}

impl Table {
    /// A table of this id, without initialiser, import, segments and name. Takes no memory.
    pub fn new(
        alloc: Global,
        id: TableId,
        table64: bool,
        initial: u64,
        maximum: Option<u64>,
        element_ty: RefType,
    ) -> Self
        ensures { IsNewTable id table64 initial maximum element_ty result }
    {
        Table {
            id,
            table64,
            initial,
            maximum,
            element_ty,
            init: None,
            import: None,
            elem_segments: IdHashSet::new(alloc),
            name: None,
        }
    }

    /// Its id.
    pub fn id(&self) -> TableId
        ensures { result ≡ self.now.id }
    {
        self.id
    }

    /// An equal table, of the same id.
    ///
    /// # Errors
    ///
    /// Want of memory.
    pub fn clone(&self) -> Result<Self, AllocError>
        ensures { IfOk result (λ copy. IsTableCopy self.now copy) }
    {
        let init = match &self.init {
            Some(init) => Some(init.clone()?),
            None => None,
        };
        Ok(Table {
            id: self.id,
            table64: self.table64,
            initial: self.initial,
            maximum: self.maximum,
            element_ty: self.element_ty,
            init,
            import: self.import,
            elem_segments: self.elem_segments.clone()?,
            name: self.name.clone()?,
        })
    }
}
