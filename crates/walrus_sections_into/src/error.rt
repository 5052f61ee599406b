//! Why what was read doesn't become an item.

use std::alloc::{AllocError, AllocFailed};

/// Why what was read doesn't become an item.
#[derive(Clone, Copy, Debug, PartialEq, Eq)]
pub enum IntoError {
    /// Want of memory.
    Memory,
    /// A number that names nothing, or an operator that isn't constant. What the readers of sections accept has none.
    Unknown,
}

impl From<AllocError> for IntoError {
    ghost use Rattle.std.specs.Prelude.{◌≡◌};
    ghost use Rattle.walrus_sections_into.specs.declared.error.IntoError.TheVariants.{Memory};

    ghost from_gives = { λ _ error. error ≡ Memory };

    fn from(_refused: AllocError) -> Self {
        IntoError::Memory
    }
}

impl<T: Drop> From<AllocFailed<T>> for IntoError {
    ghost use Rattle.std.specs.Prelude.{◌≡◌};
    ghost use Rattle.walrus_sections_into.specs.declared.error.IntoError.TheVariants.{Memory};

    ghost from_gives = { λ _ error. error ≡ Memory };

    fn from(_refused: AllocFailed<T>) -> Self {
        IntoError::Memory
    }
}
