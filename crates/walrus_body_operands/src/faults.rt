//! Why what an operator names is refused.

ghost use Rattle.std.specs.Prelude.{◌≡◌};
ghost use Rattle.walrus_body_operands.specs.Asked.{pair_fault, space_in};

use walrus_body_env::BodyError;
use walrus_index_maps as maps;
use walrus_pairing::PairError;
use wasm_formats::{Form, Limited, Space};

fn space_of(space: maps::Space) -> Space
    ensures { result ≡ space_in space }
{
    match space {
        maps::Space::Type => Space::Type,
        maps::Space::Function => Space::Function,
        maps::Space::Table => Space::Table,
        maps::Space::Memory => Space::Memory,
        maps::Space::Tag => Space::Tag,
        maps::Space::Global => Space::Global,
        maps::Space::Element => Space::Element,
        maps::Space::Data => Space::Data,
        maps::Space::Local => Space::Local,
        maps::Space::Label => Space::Label,
    }
}

/// An index of this space names nothing.
pub(crate) fn no_item(space: Space, offset: u64) -> BodyError
    ensures { result ≡ BodyError.Index space (Some offset) }
{
    BodyError::Index {
        space,
        offset: Some(offset),
    }
}

/// A form isn't supported.
pub(crate) fn unsupported(form: Form, offset: u64) -> BodyError
    ensures { result ≡ BodyError.Unsupported form (Some offset) }
{
    BodyError::Unsupported {
        form,
        offset: Some(offset),
    }
}

/// The fault of an operator that isn't paired.
pub(crate) fn fault_of(error: PairError, offset: u64) -> BodyError
    ensures { result ≡ pair_fault error offset }
{
    match error {
        PairError::Unknown(space) => no_item(space_of(space), offset),
        PairError::ContinuationType => unsupported(Form::SharedType, offset),
        PairError::Select => unsupported(Form::Select, offset),
        PairError::Alignment => BodyError::Bounds {
            offset: Some(offset),
        },
        PairError::TypeIndex => BodyError::Limit {
            of: Limited::Types,
            offset: Some(offset),
        },
        PairError::Memory => BodyError::Memory,
    }
}
