//! Why a body isn't written.

ghost use Rattle.std.specs.Prelude.{◌≡◌};
ghost use Rattle.walrus_body_writer.specs.Refusals.{fault_of, space_of};

use walrus_body_text::body_env::BodyError;
use walrus_index_maps::Space as Named;
use walrus_pairing::PairError;
use wasm_formats::{Form, Limited, Space};

fn space_of(space: Named) -> Space
    ensures { result ≡ space_of space }
{
    match space {
        Named::Type => Space::Type,
        Named::Function => Space::Function,
        Named::Table => Space::Table,
        Named::Memory => Space::Memory,
        Named::Tag => Space::Tag,
        Named::Global => Space::Global,
        Named::Element => Space::Element,
        Named::Data => Space::Data,
        Named::Local => Space::Local,
        Named::Label => Space::Label,
    }
}

/// The fault of a call that writes: no place in bytes is its cause.
pub fn fault_of(error: PairError) -> BodyError
    ensures { result ≡ fault_of error }
{
    let offset = None;
    match error {
        PairError::Unknown(space) => BodyError::Index {
            space: space_of(space),
            offset,
        },
        PairError::ContinuationType => BodyError::Unsupported {
            form: Form::ContinuationType,
            offset,
        },
        PairError::Select => BodyError::Unsupported {
            form: Form::Select,
            offset,
        },
        PairError::Alignment => BodyError::Bounds { offset },
        PairError::TypeIndex => BodyError::Limit {
            of: Limited::Types,
            offset,
        },
        PairError::Memory => BodyError::Memory,
    }
}
