//! The locals of a body are numbered and written.

ghost use Rattle.std.specs.Prelude.{◌≡◌, false, map, IfErr, OnErr, OnOk};
ghost use Rattle.wasm_normal_form.specs.Locals.{runs_of};
ghost use Rattle.walrus_index_maps.specs.Maps.{Indices};
ghost use Rattle.walrus_index_maps.specs.Views.{indices};
ghost use Rattle.walrus_local_numbers.specs.Declared.{IsOfFunction, declared, has_lost, has_number, local_ids, with_numbers};
ghost use Rattle.walrus_local_numbers.specs.Written.{IsCause, IsDeclared, IsUnwritten, Writes, keys_in};

use crate::declared::{Key, found, ids_of, in_order};
use crate::numbers::number;
use crate::runs::{runs, write, written};
use std::alloc::Global;
use walrus_arena::{FunctionId, LocalId};
use walrus_body_writer::body_env::BodyError;
use walrus_body_writer::fault_of;
use walrus_index_maps::IdsToIndices;
use walrus_items::ModuleLocals;

// The locals that are declared, in their new order, where the arguments have their numbers.
fn declared(
    alloc: Global,
    args: &[LocalId],
    used: &[LocalId],
    function: FunctionId,
    maps: &IdsToIndices,
    locals: &ModuleLocals,
) -> Result<Vec<Key>, BodyError>
    ensures { (old : Indices) → indices maps.now ≡ record old { locals = with_numbers function 0 args.now old.locals } → IsDeclared locals.now args.now used.now (keys_in result) }
{
    let locals = locals.iter().as_slice();
    let found = match found(alloc, args, used, function, maps, locals) {
        Ok(found) => found,
        Err(fault) => return Err(fault),
    };
    let keys = in_order(found)?;
    Ok(keys)
}

// The locals that are declared, in their new order; all of the function's have their numbers.
#[tactic(auto, using(crate::proofs::Numbering::others_on))]
fn number_all(
    alloc: Global,
    args: &[LocalId],
    used: &[LocalId],
    locals: &ModuleLocals,
    function: FunctionId,
    maps: &mut IdsToIndices,
) -> Result<Vec<Key>, BodyError>
    ensures declared { IsDeclared locals.now args.now used.now (keys_in result) }
    ensures numbered { OnOk result (indices maps.new ≡ record (indices maps.old) { locals = with_numbers function 0 (local_ids locals.now args.now used.now) (indices maps.old).locals }) }
    ensures others { IsOfFunction function (indices maps.old) (indices maps.new) }
{
    number(maps, function, 0, args)?;
    let keys = match declared(alloc, args, used, function, maps, locals) {
        Ok(keys) => keys,
        Err(fault) => return Err(fault),
    };
    let ids = ids_of(alloc, keys.as_slice())?;
    number(maps, function, args.len(), ids.as_slice())?;
    Ok(keys)
}

// Writes the declarations of these locals.
fn write_all(
    alloc: Global,
    maps: &IdsToIndices,
    keys: &[Key],
    out: &mut Vec<u8>,
) -> Result<(), BodyError>
    ensures written { OnOk result (Writes (indices maps.now).types.number (runs_of (map (λ k. k.0) keys.now)) out.old.items out.new.items) }
    ensures kept { OnErr result (out.new.items ≡ out.old.items) }
    ensures refused { IfErr result (IsUnwritten (indices maps.now).types.number (runs_of (map (λ k. k.0) keys.now))) }
{
    let runs = runs(alloc, keys)?;
    let runs = match written(alloc, maps, runs.as_slice()) {
        Ok(runs) => runs,
        Err(error) => return Err(fault_of(error)),
    };
    let len = out.len();
    if write(out, runs.as_slice()).is_err() {
        out.truncate(len);
        return Err(BodyError::Memory);
    }
    Ok(())
}

/// Gives the locals of a function their numbers, and puts their declarations behind the bytes, in their shortest spelling: those
/// that the body names, `used`, and that are no arguments, by type, then by id, in maximal runs of one type. The arguments have the
/// first numbers, then the others in this order. The ids may stand in any order, and more than once. Takes time in proportion to the
/// ids, and to the number of the used ones with its logarithm.
///
/// # Errors
///
/// `Index` of locals where a used one is no argument and not known; else `Index` of types where the type of a local names one that has
/// no number, `Limit` of types where that has more than 20 bits; or want of memory. The bytes are as they were; of the numbers none
/// but those of the function's locals are other ones.
pub fn emit_locals(
    alloc: Global,
    args: &[LocalId],
    used: &[LocalId],
    locals: &ModuleLocals,
    function: FunctionId,
    maps: &mut IdsToIndices,
    out: &mut Vec<u8>,
) -> Result<(), BodyError>
    ensures numbered { OnOk result (indices maps.new ≡ record (indices maps.old) { locals = with_numbers function 0 (local_ids locals.now args.now used.now) (indices maps.old).locals }) }
    ensures others { IsOfFunction function (indices maps.old) (indices maps.new) }
    ensures known { OnOk result (has_lost locals.now (has_number args.now) used.now ≡ false) }
    ensures written { OnOk result (Writes (indices maps.old).types.number (runs_of (map (λ k. k.0) (declared locals.now args.now used.now))) out.old.items out.new.items) }
    ensures kept { OnErr result (out.new.items ≡ out.old.items) }
    ensures refused { IfErr result (IsCause (indices maps.old).types.number locals.now args.now used.now (runs_of (map (λ k. k.0) (declared locals.now args.now used.now)))) }
{
    let keys = number_all(alloc, args, used, locals, function, maps)?;
    write_all(alloc, maps, keys.as_slice(), out)
}
