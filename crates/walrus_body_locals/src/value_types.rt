//! Types of locals.

ghost use Rattle.std.specs.Prelude.{◌≡◌, length, Some};
ghost use Rattle.walrus_index_maps.specs.Views.{ids};
ghost use Rattle.walrus_body_nesting.specs.wasm_grammar.Values.{value_type};
ghost use Rattle.walrus_body_locals.specs.Calls.{Parses};
ghost use Rattle.walrus_body_locals.specs.Locals.{IsTypeOf, trouble_of};
ghost use Rattle.walrus_body_nesting.specs.Faults.{fault_at};

use std::alloc::Global;
use walrus_body_env::BodyError;
use walrus_index_maps::IndicesToIds;
use walrus_pairing::type_table::ValType;
use walrus_pairing::{PairError, read_value};
use wasm_formats::{Form, Space};
use wasm_reader::{BinaryReader, FromReader};
use wasm_ref_types as written;

// Why a value type at this offset is refused.
fn type_fault(error: PairError, offset: u64) -> BodyError
    ensures { fault_at (trouble_of error) offset ≡ Some result }
{
    let offset = Some(offset);
    match error {
        PairError::Unknown(_) => BodyError::Index {
            space: Space::Type,
            offset,
        },
        PairError::ContinuationType
        | PairError::Select
        | PairError::Alignment
        | PairError::TypeIndex
        | PairError::Memory => BodyError::Unsupported {
            form: Form::SharedType,
            offset,
        },
    }
}

/// A value type: as it stands in the file, and with the ids that its indices name.
///
/// # Errors
///
/// As it is read; at its first byte `Index` where it names no type.
pub(crate) fn read_type(
    alloc: Global,
    reader: &mut BinaryReader<'_>,
    indices: &IndicesToIds,
) -> Result<(written::ValType, ValType), BodyError>
    ensures { Parses (value_type reader.old.window.features (length (ids indices.now).types)).parse (IsTypeOf (ids indices.now).types) reader.old reader.new result }
{
    let offset = reader.original_position();
    let ty = written::ValType::from_reader(alloc, reader)?;
    let read = ty;
    match read_value(ty, indices) {
        Ok(own) => Ok((read, own)),
        Err(error) => Err(type_fault(error, offset)),
    }
}
