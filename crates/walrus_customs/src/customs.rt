//! Custom sections as they stand in a file.
ghost use Rattle.std.specs.Prelude.{◌≡◌, IfOk, string_bytes};

use std::alloc::AllocError;

/// A custom section as it stands in a file (Core Specification, custom section).
#[derive(PartialEq, Eq, Drop)]
pub struct RawCustomSection {
    /// Its name.
    pub name: String,
    /// Its bytes after the name.
    pub bytes: Vec<u8>,
}

impl RawCustomSection {
    /// An equal section.
    ///
    /// # Errors
    ///
    /// Want of memory.
    pub fn clone(&self) -> Result<Self, AllocError>
        ensures name { IfOk result (λ copy. string_bytes copy.name ≡ string_bytes self.now.name) }
        ensures bytes { IfOk result (λ copy. copy.bytes.items ≡ self.now.bytes.items) }
    {
        Ok(RawCustomSection {
            name: self.name.clone()?,
            bytes: self.bytes.clone()?,
        })
    }
}
