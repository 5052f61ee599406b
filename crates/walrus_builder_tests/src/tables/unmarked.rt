//! A group of several types that has no mark, which no file has.
ghost use Rattle.std.specs.Prelude.{ℕ, IfOk, map};
ghost use Rattle.walrus_forms.specs.Records.{record_kind, type_group};
ghost use Rattle.walrus_forms.specs.Renaming.{KindBelow};
ghost use Rattle.walrus_types.specs.Parsing.{AreBelow};

use crate::tables::words::are_ids;
use std::alloc::{AllocError, Global};
use walrus_forms::{CompositeRecord, FieldRecord, GroupRecord, StorageRecord, TypeRecord};
use walrus_types::ModuleTypes;

// A final array of bytes.
fn array() -> TypeRecord
    ensures { (n : ℕ) → KindBelow n (record_kind result) }
{
    TypeRecord {
        kind: CompositeRecord::Array {
            field: FieldRecord {
                element_type: StorageRecord::I8,
                mutable: false,
            },
        },
        is_final: true,
        supertype: None,
    }
}

// A group of two of them.
fn pair(alloc: Global) -> Result<Vec<GroupRecord>, AllocError>
    ensures { IfOk result (λ groups. AreBelow 0 (map type_group groups.items)) }
{
    let mut types = Vec::new(alloc);
    types.push(array())?;
    types.push(array())?;
    let mut groups = Vec::new(alloc);
    groups.push(GroupRecord {
        marked: false,
        types,
    })?;
    Ok(groups)
}

/// Whether the types of the group are read under these ids.
pub(crate) fn reads_pair(
    alloc: Global,
    types: &mut ModuleTypes,
    wanted: &[u8],
) -> Result<bool, AllocError> {
    let ids = types.parse_types(pair(alloc)?.as_slice())?;
    Ok(are_ids(ids.as_slice(), wanted))
}
