//! The locals that a body declares.

ghost use Rattle.std.specs.Prelude.{◌≡◌, false, map, OnOk, IfOk, IfErr};
ghost use Rattle.walrus_index_maps.specs.Views.{indices};
ghost use Rattle.walrus_local_numbers.specs.Declared.{AreKeys, found_keys, has_lost, is_numbered};
ghost use Rattle.walrus_local_numbers.specs.Written.{Finds, IsUnknown};

use crate::numbers::is_argument;
use std::alloc::{AllocError, Global};
use walrus_arena::{FunctionId, LocalId, LocalSpace};
use walrus_body_writer::body_env::BodyError;
use walrus_forms::ValType;
use walrus_index_maps::IdsToIndices;
use walrus_items::Local;
use wasm_formats::Space;

/// A local, behind its type.
pub(crate) type Key = (ValType, LocalId);

// Puts a local behind the keys, unless it is an argument.
fn add_key(
    keys: &mut Vec<Key>,
    args: &[LocalId],
    function: FunctionId,
    maps: &IdsToIndices,
    locals: &[Local],
    id: LocalId,
) -> Result<(), BodyError>
    ensures { Finds locals.now (is_numbered args.now (indices maps.now) function) id keys.old.items keys.new.items result }
{
    if is_argument(args, function, maps, id) {
        return Ok(());
    }
    match locals.get(id.index()) {
        Some(local) => {
            keys.extend_from_slice(&[(local.ty(), id)])?;
            Ok(())
        }
        None => Err(BodyError::Index {
            space: Space::Local,
            offset: None,
        }),
    }
}

/// Of the used locals those that are no arguments, where the arguments have their numbers, each time that it is used.
///
/// # Errors
///
/// `Index` of locals where one that is no argument isn't known; or memory was wanted.
pub(crate) fn found(
    alloc: Global,
    args: &[LocalId],
    used: &[LocalId],
    function: FunctionId,
    maps: &IdsToIndices,
    locals: &[Local],
) -> Result<Vec<Key>, BodyError>
    ensures found { IfOk result (λ keys. keys.items ≡ found_keys locals.now (is_numbered args.now (indices maps.now) function) used.now) }
    ensures known { OnOk result (has_lost locals.now (is_numbered args.now (indices maps.now) function) used.now ≡ false) }
    ensures refused { IfErr result (IsUnknown locals.now (is_numbered args.now (indices maps.now) function) used.now) }
{
    let mut keys = Vec::new(alloc);
    for id in used {
        add_key(&mut keys, args, function, maps, locals, *id)?;
    }
    Ok(keys)
}

/// Each of the locals once, by type, then by id.
///
/// # Errors
///
/// Want of memory.
pub(crate) fn in_order(mut keys: Vec<Key>) -> Result<Vec<Key>, AllocError>
    ensures { IfOk result (λ sorted. AreKeys keys.items sorted.items) }
{
    walrus_arena::laws::ids_go_by_number::<LocalSpace>();
    keys.sort()?;
    keys.dedup();
    Ok(keys)
}

/// The ids of the locals.
///
/// # Errors
///
/// Want of memory.
pub(crate) fn ids_of(alloc: Global, keys: &[Key]) -> Result<Vec<LocalId>, AllocError>
    ensures { IfOk result (λ ids. ids.items ≡ map (λ k. k.1) keys.now) }
{
    keys.iter().map(|key| key.1).collect(alloc)
}
