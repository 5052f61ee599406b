//! The tags of a module.
ghost use Rattle.std.specs.Prelude.{◌≡◌, ◌<◌, ◌+◌, ◌≤◌, [], ◌∷◌, ◌++◌, IfOk, OnErr, None, Some, IsOk};
ghost use Rattle.walrus_arena.specs.Arena.{next_id};
ghost use Rattle.walrus_module_items.specs.declared.tag.TagKind.TheVariants as kinds;

use crate::collection::Collection;
use std::alloc::AllocError;
use walrus_arena::{ImportId, TagId, TagSpace, TypeId};
use walrus_module_items::{Tag, TagKind};

/// The tags of a module.
pub type ModuleTags = Collection<Tag, TagSpace>;

impl Collection<Tag, TagSpace> {
    /// Adds a tag of the module's own, and gives its id.
    ///
    /// # Errors
    ///
    /// Want of memory. The tags stay as they were.
    pub fn add(&mut self, ty: TypeId) -> Result<TagId, AllocError>
        ensures id { IfOk result (λ id. id ≡ next_id self.old) }
        ensures added { IfOk result (λ id. self.new.slots ≡ self.old.slots ++ Some (record { id = id; ty = ty; kind = kinds.Local; name = None }) ∷ []) }
        ensures room { self.old.room ≤ self.new.room + 1 }
        ensures succeeds { 0 < self.old.room → IsOk result }
        ensures refused { OnErr result (self.new ≡ self.old) }
    {
        self.reserve(1)?;
        let id = self.next_id();
        Ok(self.push_reserved(Tag::new(id, ty)))
    }

    /// Adds a tag that this import brings, and gives its id. The import is to name the tag, too.
    ///
    /// # Errors
    ///
    /// Want of memory. The tags stay as they were.
    pub fn add_import(&mut self, ty: TypeId, import: ImportId) -> Result<TagId, AllocError>
        ensures id { IfOk result (λ id. id ≡ next_id self.old) }
        ensures added { IfOk result (λ id. self.new.slots ≡ self.old.slots ++ Some (record { id = id; ty = ty; kind = kinds.Import import; name = None }) ∷ []) }
        ensures room { self.old.room ≤ self.new.room + 1 }
        ensures succeeds { 0 < self.old.room → IsOk result }
        ensures refused { OnErr result (self.new ≡ self.old) }
    {
        self.reserve(1)?;
        let id = self.next_id();
        let mut tag = Tag::new(id, ty);
        tag.kind = TagKind::Import(import);
        Ok(self.push_reserved(tag))
    }
}
