//! Globals.
ghost use Rattle.std.specs.Prelude.{◌≡◌, None, IfOk};
ghost use Rattle.walrus_module_items.specs.Copies.{IsGlobalCopy, IsGlobalKindCopy};

use std::alloc::AllocError;
use walrus_arena::{GlobalId, ImportId, Tombstone};
use walrus_forms::ValType;
use walrus_instr::ConstExpr;

/// Where a global comes from.
#[derive(Drop)]
pub enum GlobalKind {
    /// An import brings it.
    Import(ImportId),
    /// It is the module's own, with this first value.
    Local(ConstExpr),
}

/// A global (Core Specification, globals).
#[derive(Drop)]
pub struct Global {
    id: GlobalId,
    /// The type of its value.
    pub ty: ValType,
    /// Whether it can be written.
    pub mutable: bool,
    /// Whether several threads may use it.
    pub shared: bool,
    /// Where it comes from.
    pub kind: GlobalKind,
    /// The name that is written for it.
    pub name: Option<String>,
}

impl Tombstone for Global {
    fn on_delete(&mut self) {}
}

impl GlobalKind {
    /// An equal kind.
    ///
    /// # Errors
    ///
    /// Want of memory.
    pub fn clone(&self) -> Result<Self, AllocError>
        ensures { IfOk result (λ copy. IsGlobalKindCopy self.now copy) }
    {
        match self {
            GlobalKind::Import(import) => Ok(GlobalKind::Import(*import)),
            GlobalKind::Local(init) => Ok(GlobalKind::Local(init.clone()?)),
        }
    }
}

impl Global {
    /// A global of this id, without a name.
    pub fn new(id: GlobalId, ty: ValType, mutable: bool, shared: bool, kind: GlobalKind) -> Self
        ensures { result ≡ record { id = id; ty = ty; mutable = mutable; shared = shared; kind = kind; name = None } }
    {
        Global {
            id,
            ty,
            mutable,
            shared,
            kind,
            name: None,
        }
    }

    /// Its id.
    pub fn id(&self) -> GlobalId
        ensures { result ≡ self.now.id }
    {
        self.id
    }

    /// An equal global, of the same id.
    ///
    /// # Errors
    ///
    /// Want of memory.
    pub fn clone(&self) -> Result<Self, AllocError>
        ensures { IfOk result (λ copy. IsGlobalCopy self.now copy) }
    {
        Ok(Global {
            id: self.id,
            ty: self.ty,
            mutable: self.mutable,
            shared: self.shared,
            kind: self.kind.clone()?,
            name: self.name.clone()?,
        })
    }
}
