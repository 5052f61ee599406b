//! The refusals of a type table.
ghost use Rattle.std.specs.Prelude.{◌≡◌};

use std::alloc::{AllocError, AllocFailed};
use thiserror::Error;

/// Why a call on a type table was refused.
#[derive(Clone, Copy, PartialEq, Eq, Debug, Error)]
pub enum IrError {
    /// Want of memory.
    #[error("out of memory")]
    Memory,
    /// A recursion group was made with another count of types than was asked for.
    #[error("a recursion group has another count of types than was asked for")]
    WrongCount,
    /// A type that is written names a deleted one.
    #[error("a type names a deleted type")]
    Dead,
    /// A type that is written names an entry type, which never is.
    #[error("a type names an entry type")]
    EntryOnly,
    /// A type that is written names one past its own group.
    #[error("a type names one past its own group")]
    Later,
}

impl From<AllocError> for IrError {
    ghost use Rattle.walrus_type_arenas.specs.declared.error.IrError.TheVariants.{Memory};

    ghost from_gives = { λ _ e. e ≡ Memory };

    fn from(_refused: AllocError) -> IrError {
        IrError::Memory
    }
}

impl<T: Drop> From<AllocFailed<T>> for IrError {
    ghost use Rattle.walrus_type_arenas.specs.declared.error.IrError.TheVariants.{Memory};

    ghost from_gives = { λ _ e. e ≡ Memory };

    fn from(_refused: AllocFailed<T>) -> IrError {
        IrError::Memory
    }
}
