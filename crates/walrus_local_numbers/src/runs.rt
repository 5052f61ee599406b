//! Runs of locals of one type.

ghost use Rattle.std.specs.Prelude.{◌≡◌, ◌++◌, map, IfOk, OnOk, IfErr};
ghost use Rattle.walrus_operators.specs.Appended.{Appends};
ghost use Rattle.wasm_normal_form.specs.Locals.{runs_of};
ghost use Rattle.walrus_index_maps.specs.Views.{indices};
ghost use Rattle.walrus_local_numbers.specs.Declared.{add_last};
ghost use Rattle.walrus_local_numbers.specs.Written.{IsWrittenRuns, run_bytes, runs_bytes, runs_in};

use crate::declared::Key;
use std::alloc::{AllocError, Global};
use walrus_body_writer::pairing::{PairError, write_value};
use walrus_forms::ValType;
use walrus_index_maps::IdsToIndices;
use walrus_operators::{write_unsigned, write_value_type};
use wasm_ref_types::ValType as WrittenType;

// So many locals of a type.
pub(crate) type Run = (u32, ValType);

// Adds a local of the type behind the runs.
fn add(runs: &mut Vec<Run>, ty: ValType) -> Result<(), AllocError>
    ensures { OnOk result (runs.new.items ≡ add_last ty runs.old.items) }
{
    let Some((count, last)) = runs.pop() else {
        return runs.extend_from_slice(&[(1, ty)]);
    };
    if last == ty {
        let Some(more) = count.checked_add(1) else {
            return Err(AllocError);
        };
        return runs.extend_from_slice(&[(more, last)]);
    }
    runs.extend_from_slice(&[(count, last), (1, ty)])
}

/// The maximal runs of locals of one type.
///
/// # Errors
///
/// Want of memory.
pub(crate) fn runs(alloc: Global, keys: &[Key]) -> Result<Vec<Run>, AllocError>
    ensures { IfOk result (λ runs. runs.items ≡ runs_of (map (λ k. k.0) keys.now)) }
{
    let mut runs = Vec::new(alloc);
    for key in keys {
        add(&mut runs, key.0)?;
    }
    Ok(runs)
}

/// The runs with the types that are written for theirs.
///
/// # Errors
///
/// A type's name has no number, or one that is too great; or want of memory.
pub(crate) fn written(
    alloc: Global,
    maps: &IdsToIndices,
    runs: &[Run],
) -> Result<Vec<(u32, WrittenType)>, PairError>
    ensures { IsWrittenRuns (indices maps.now).types.number runs.now (runs_in result) }
{
    let mut written = Vec::new(alloc);
    for run in runs {
        let ty = write_value(run.1, maps)?;
        written.extend_from_slice(&[(run.0, ty)])?;
    }
    Ok(written)
}

#[tactic(auto, using(walrus_operators::proofs::Appends::appends_on))]
fn write_run(out: &mut Vec<u8>, run: (u32, WrittenType)) -> Result<(), AllocError>
    ensures { Appends (run_bytes run) out.old.items out.new.items result }
{
    write_unsigned(out, u64::from(run.0))?;
    write_value_type(out, run.1)
}

/// Puts the runs behind the bytes, in their shortest spelling.
///
/// # Errors
///
/// Want of memory. What was there stands at the front.
#[tactic(auto, using(walrus_operators::proofs::Keeps::keeps_on, std::proofs::lemmas::List::append_assoc))]
pub(crate) fn write(out: &mut Vec<u8>, runs: &[(u32, WrittenType)]) -> Result<(), AllocError>
    ensures { Appends (runs_bytes runs.now) out.old.items out.new.items result }
{
    write_unsigned(out, runs.len() as u64)?;
    for run in runs {
        write_run(out, *run)?;
    }
    Ok(())
}
