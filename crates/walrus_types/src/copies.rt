//! Copies of what was written.
ghost use Rattle.std.specs.Prelude.{◌≡◌, IfOk, map};
ghost use Rattle.walrus_type_arenas.specs.walrus_type_index.walrus_items.walrus_forms.Records.{type_group};

use crate::emit::{EmittedTypes, TypeIndices};
use std::alloc::{AllocError, Global};

impl TypeIndices {
    /// Equal indices.
    ///
    /// # Errors
    ///
    /// Want of memory.
    pub fn clone(&self) -> Result<Self, AllocError>
        ensures { IfOk result (λ copy. copy ≡ self.now) }
    {
        Ok(TypeIndices {
            indices: self.indices.clone()?,
        })
    }
}

impl EmittedTypes {
    /// Equal records, indices and ids.
    ///
    /// # Errors
    ///
    /// Want of memory.
    pub fn clone(&self, alloc: Global) -> Result<Self, AllocError>
        ensures groups { IfOk result (λ copy. map type_group copy.groups.items ≡ map type_group self.now.groups.items) }
        ensures indices { IfOk result (λ copy. copy.indices ≡ self.now.indices) }
        ensures ids { IfOk result (λ copy. copy.ids.items ≡ self.now.ids.items) }
    {
        let mut groups = Vec::with_capacity(alloc, self.groups.len())?;
        for group in &self.groups {
            groups.push(group.clone(alloc)?)?;
        }
        Ok(EmittedTypes {
            groups,
            indices: self.indices.clone()?,
            ids: self.ids.clone()?,
        })
    }
}
