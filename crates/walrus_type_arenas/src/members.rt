//! The types that the records of a type section describe.
ghost use Rattle.std.specs.Prelude.{◌≡◌, ◌&&◌, ◌==◌, not, All, IfOk, length, map};
ghost use Rattle.walrus_type_index.specs.walrus_items.walrus_forms.Records.{record_kind};
ghost use Rattle.walrus_type_index.specs.walrus_items.walrus_forms.Renaming.{KindBelow, at, renamed_kind};
ghost use Rattle.walrus_type_arenas.specs.Groups.{member_kind};

use crate::group::NewType;
use std::alloc::{AllocError, Global};
use walrus_type_index::arena::TypeId;
use walrus_type_index::forms::{GroupRecord, TypeRecord};

/// The type that the record describes, where each index names the id that the list has there.
pub fn resolve(alloc: Global, ty: &TypeRecord, ids: &[TypeId]) -> Result<NewType, AllocError>
    requires { KindBelow (length ids.now) (record_kind ty.now) }
    ensures { IfOk result (λ new. member_kind new ≡ renamed_kind (at ids.now) (record_kind ty.now)) }
{
    let kind = ty.kind.resolve(alloc, ids)?;
    let supertype = match ty.supertype {
        Some(index) => Some(ids[index as usize]),
        None => None,
    };
    Ok(NewType {
        kind,
        is_final: ty.is_final,
        supertype,
    })
}

/// Whether it is one type that stands in no written group.
pub fn is_single(group: &GroupRecord) -> bool
    ensures { result ≡ (not group.now.marked && length group.now.types.items == 1) }
{
    !group.marked && group.types.len() == 1
}

/// The types that the records describe.
pub fn resolve_all(
    alloc: Global,
    types: &[TypeRecord],
    ids: &[TypeId],
) -> Result<Vec<NewType>, AllocError>
    requires { All (KindBelow (length ids.now)) (map record_kind types.now) }
    ensures { IfOk result (λ news. map member_kind news.items ≡ map (renamed_kind (at ids.now)) (map record_kind types.now)) }
{
    let mut news = Vec::with_capacity(alloc, types.len())?;
    for ty in types {
        news.push(resolve(alloc, ty, ids)?)?;
    }
    Ok(news)
}
