//! Tags of exceptions.
ghost use Rattle.std.specs.Prelude.{◌≡◌, None, IfOk};
ghost use Rattle.walrus_module_items.specs.declared.tag.TagKind.TheVariants.{Local};
ghost use Rattle.walrus_module_items.specs.Copies.{IsNameCopy};

use std::alloc::AllocError;
use walrus_arena::{ImportId, TagId, Tombstone, TypeId};

/// Where a tag comes from.
#[derive(Clone, Copy, PartialEq, Eq)]
pub enum TagKind {
    /// An import brings it.
    Import(ImportId),
    /// It is the module's own.
    Local,
}

/// A tag (Core Specification, tags).
#[derive(Drop)]
pub struct Tag {
    id: TagId,
    /// Its function type.
    pub ty: TypeId,
    /// Where it comes from.
    pub kind: TagKind,
    /// The name that is written for it.
    pub name: Option<String>,
}

impl Tombstone for Tag {
    fn on_delete(&mut self) {}
}

impl Tag {
    /// A tag of the module's own, without a name.
    pub fn new(id: TagId, ty: TypeId) -> Self
        ensures { result ≡ record { id = id; ty = ty; kind = Local; name = None } }
    {
        Tag {
            id,
            ty,
            kind: TagKind::Local,
            name: None,
        }
    }

    /// Its id.
    pub fn id(&self) -> TagId
        ensures { result ≡ self.now.id }
    {
        self.id
    }

    /// Its type.
    pub fn ty(&self) -> TypeId
        ensures { result ≡ self.now.ty }
    {
        self.ty
    }

    /// An equal tag, of the same id.
    ///
    /// # Errors
    ///
    /// Want of memory.
    pub fn clone(&self) -> Result<Self, AllocError>
        ensures id { IfOk result (λ copy. copy.id ≡ self.now.id) }
        ensures ty { IfOk result (λ copy. copy.ty ≡ self.now.ty) }
        ensures kind { IfOk result (λ copy. copy.kind ≡ self.now.kind) }
        ensures name { IfOk result (λ copy. IsNameCopy self.now.name copy.name) }
    {
        Ok(Tag {
            id: self.id,
            ty: self.ty,
            kind: self.kind,
            name: self.name.clone()?,
        })
    }
}
