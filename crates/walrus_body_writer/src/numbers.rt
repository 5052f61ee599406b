//! The numbers of what a body names.

ghost use Rattle.std.specs.Prelude.{◌≡◌, Ok, Some};
ghost use Rattle.wasm_operators.specs.Items.{Tags, Types};
ghost use Rattle.walrus_pairing.specs.Looks.{found};
ghost use Rattle.walrus_pairing.specs.Types.{type_of};
ghost use Rattle.walrus_body_writer.specs.Numbers.{look_of};

use walrus_arena::{FunctionId, TagId, TypeId};
use walrus_index_maps::{IdsToIndices, Space};
use walrus_pairing::PairError;
use walrus_pairing::operators::{Immediates, Operator};
use wasm_operators::OpCode;

/// An operator, none, or why it isn't written.
pub(crate) type Written = Result<Option<Operator>, PairError>;

/// The numbers of all ids, in the body of a function.
#[derive(Drop)]
pub(crate) struct Numbers<'a> {
    pub(crate) maps: &'a IdsToIndices,
    pub(crate) function: FunctionId,
}

impl Numbers<'_> {
    /// The number of a type.
    pub(crate) fn type_number(&self, id: TypeId) -> Result<u32, PairError>
        ensures { result ≡ type_of (look_of self.now Types) id }
    {
        self.maps
            .get_type_index(id)
            .ok_or(PairError::Unknown(Space::Type))
    }

    /// The number of a tag.
    pub(crate) fn tag_number(&self, id: TagId) -> Result<u32, PairError>
        ensures { result ≡ found (look_of self.now) Tags id }
    {
        self.maps
            .get_tag_index(id)
            .ok_or(PairError::Unknown(Space::Tag))
    }
}

/// An operator.
pub(crate) fn op(code: OpCode, immediates: Immediates) -> Written
    ensures { result ≡ Ok (Some (record { code = code; immediates = immediates })) }
{
    Ok(Some(Operator { code, immediates }))
}
