//! The globals of a module.
ghost use Rattle.std.specs.Prelude.{◌≡◌, ◌<◌, ◌+◌, ◌≤◌, [], ◌∷◌, ◌++◌, IfOk, OnErr, None, Some, IsOk};
ghost use Rattle.walrus_arena.specs.Arena.{next_id};
ghost use Rattle.walrus_module_items.specs.declared.global.GlobalKind.TheVariants as kinds;

use crate::collection::Collection;
use std::alloc::AllocError;
use walrus_arena::{GlobalId, GlobalSpace, ImportId};
use walrus_forms::ValType;
use walrus_instr::ConstExpr;
use walrus_module_items::{Global, GlobalKind};

/// The globals of a module.
pub type ModuleGlobals = Collection<Global, GlobalSpace>;

impl Collection<Global, GlobalSpace> {
    // Adds a global of this kind.
    fn add(
        &mut self,
        ty: ValType,
        mutable: bool,
        shared: bool,
        kind: GlobalKind,
    ) -> Result<GlobalId, AllocError>
        ensures id { IfOk result (λ id. id ≡ next_id self.old) }
        ensures added { IfOk result (λ id. self.new.slots ≡ self.old.slots ++ Some (record { id = id; ty = ty; mutable = mutable; shared = shared; kind = kind; name = None }) ∷ []) }
        ensures room { self.old.room ≤ self.new.room + 1 }
        ensures succeeds { 0 < self.old.room → IsOk result }
        ensures refused { OnErr result (self.new ≡ self.old) }
    {
        self.reserve(1)?;
        let id = self.next_id();
        Ok(self.push_reserved(Global::new(id, ty, mutable, shared, kind)))
    }

    /// Adds a global that this import brings, and gives its id. The import is to name the global, too.
    ///
    /// # Errors
    ///
    /// Want of memory. The globals stay as they were.
    pub fn add_import(
        &mut self,
        ty: ValType,
        mutable: bool,
        shared: bool,
        import: ImportId,
    ) -> Result<GlobalId, AllocError>
        ensures id { IfOk result (λ id. id ≡ next_id self.old) }
        ensures added { IfOk result (λ id. self.new.slots ≡ self.old.slots ++ Some (record { id = id; ty = ty; mutable = mutable; shared = shared; kind = kinds.Import import; name = None }) ∷ []) }
        ensures room { self.old.room ≤ self.new.room + 1 }
        ensures succeeds { 0 < self.old.room → IsOk result }
        ensures refused { OnErr result (self.new ≡ self.old) }
    {
        self.add(ty, mutable, shared, GlobalKind::Import(import))
    }

    /// Adds a global of the module's own with this first value, and gives its id.
    ///
    /// # Errors
    ///
    /// Want of memory. The globals stay as they were.
    pub fn add_local(
        &mut self,
        ty: ValType,
        mutable: bool,
        shared: bool,
        init: ConstExpr,
    ) -> Result<GlobalId, AllocError>
        ensures id { IfOk result (λ id. id ≡ next_id self.old) }
        ensures added { IfOk result (λ id. self.new.slots ≡ self.old.slots ++ Some (record { id = id; ty = ty; mutable = mutable; shared = shared; kind = kinds.Local init; name = None }) ∷ []) }
        ensures room { self.old.room ≤ self.new.room + 1 }
        ensures succeeds { 0 < self.old.room → IsOk result }
        ensures refused { OnErr result (self.new ≡ self.old) }
    {
        self.add(ty, mutable, shared, GlobalKind::Local(init))
    }
}
