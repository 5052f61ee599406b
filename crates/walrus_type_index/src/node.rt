//! What a node of a tree stands for.
use walrus_items::arena::TypeId;

/// An id behind the hash of its type's kind, so that most searches look at nodes alone.
#[derive(Clone, Copy)]
pub struct Hashed {
    pub hash: u128,
    pub id: TypeId,
}
