//! Sets of ids as lists.

ghost use Rattle.std.specs.Prelude.{IfOk};
ghost use Rattle.walrus_body_names.specs.Names.{AreSet};

use std::alloc::AllocError;
use walrus_arena::Id;

/// Each of the ids once, by rising number.
///
/// # Errors
///
/// Want of memory.
pub(crate) fn distinct<S>(mut ids: Vec<Id<S>>) -> Result<Vec<Id<S>>, AllocError>
    ensures { IfOk result (λ set. AreSet ids.items set.items) }
{
    walrus_arena::laws::ids_go_by_number::<S>();
    ids.sort()?;
    ids.dedup();
    Ok(ids)
}
