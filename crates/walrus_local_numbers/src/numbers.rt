//! Numbers of the locals of a function.

ghost use Rattle.std.specs.Prelude.{◌≡◌, OnOk};
ghost use Rattle.walrus_index_maps.specs.Views.{indices};
ghost use Rattle.walrus_local_numbers.specs.Declared.{IsOfFunction, is_numbered, with_numbers};

use std::alloc::AllocError;
use walrus_arena::{FunctionId, LocalId};
use walrus_index_maps::IdsToIndices;

/// Gives each of the locals in turn the next number in the function, the first of them this one.
///
/// # Errors
///
/// Want of memory, or no number of 32 bits is left. Some may have their number.
pub(crate) fn number(
    maps: &mut IdsToIndices,
    function: FunctionId,
    first: usize,
    ids: &[LocalId],
) -> Result<(), AllocError>
    ensures numbered { OnOk result (indices maps.new ≡ record (indices maps.old) { locals = with_numbers function first ids.now (indices maps.old).locals }) }
    ensures others { IsOfFunction function (indices maps.old) (indices maps.new) }
{
    let mut next = first;
    for id in ids {
        let Ok(index) = u32::try_from(next) else {
            return Err(AllocError);
        };
        maps.set_local_index(function, *id, index)?;
        let Some(behind) = next.checked_add(1) else {
            return Err(AllocError);
        };
        next = behind;
    }
    Ok(())
}

/// Whether the local is an argument, where these have their numbers.
pub(crate) fn is_argument(
    args: &[LocalId],
    function: FunctionId,
    maps: &IdsToIndices,
    id: LocalId,
) -> bool
    ensures { result ≡ is_numbered args.now (indices maps.now) function id }
{
    match maps.get_local_index(function, id) {
        Some(number) => match args.get(number as usize) {
            Some(arg) => arg.number() == id.number(),
            None => false,
        },
        None => false,
    }
}
