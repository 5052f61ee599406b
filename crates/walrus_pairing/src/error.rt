//! Why an operator and an instruction aren't paired.

use std::alloc::AllocError;
use walrus_index_maps::{Space, UnknownIndex};

/// Why an operator gives no instruction, or an instruction no operator.
#[derive(Clone, Copy, Debug, PartialEq, Eq)]
pub enum PairError {
    /// An index names nothing, or an id has no number.
    Unknown(Space),
    /// A heap type of continuations.
    ContinuationType,
    /// A `select` of more value types than one, or of none.
    Select,
    /// An alignment of 2^32 bytes or more.
    Alignment,
    /// The number of a type inside a value type is 2^20 or more.
    TypeIndex,
    /// Want of memory.
    Memory,
}

impl From<UnknownIndex> for PairError {
    ghost use Rattle.std.specs.Prelude.{◌≡◌};
    ghost use Rattle.walrus_pairing.specs.declared.error.PairError.TheVariants.{Unknown};

    ghost from_gives = { λ unknown error. error ≡ Unknown unknown.0 };

    fn from(unknown: UnknownIndex) -> Self {
        PairError::Unknown(unknown.0)
    }
}

impl From<AllocError> for PairError {
    ghost use Rattle.std.specs.Prelude.{◌≡◌};
    ghost use Rattle.walrus_pairing.specs.declared.error.PairError.TheVariants.{Memory};

    ghost from_gives = { λ _ error. error ≡ Memory };

    fn from(_error: AllocError) -> Self {
        PairError::Memory
    }
}
