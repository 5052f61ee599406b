//! Runs of locals.

ghost use Rattle.std.specs.Prelude.{◌≡◌, ◌⊎◌, ◌≤◌, ◌<◌, ◌+◌, ◌-◌, ◌^◌, ◌∷◌, [], Bool, List, drop, length, IfSome, IfOk, IfErr, OnOk, OnErr};
ghost use Rattle.std.specs.List.{repeat};
ghost use Rattle.wasm_reader.specs.Cursor.{Forward, rest};
ghost use Rattle.wasm_reader.specs.Reading.{plain};
ghost use Rattle.walrus_index_maps.specs.Maps.{with_skipped};
ghost use Rattle.walrus_index_maps.specs.Views.{ids};
ghost use Rattle.walrus_body_nesting.specs.walrus_body_env.declared.error.BodyError.TheVariants.{Memory as WantsMemory};
ghost use Rattle.walrus_body_nesting.specs.wasm_body_grammar.Bodies.{declared};
ghost use Rattle.walrus_body_locals.specs.Calls.{Parses};
ghost use Rattle.walrus_body_locals.specs.Named.{AreAll, AreNumbers, kept_numbers, next_below};
ghost use Rattle.walrus_body_locals.specs.Told.{Tells};
ghost use Rattle.walrus_body_locals.specs.Locals.{Adds, AddsKept, Chooses, Declares, IsRunOf, Leaves, ReadsRuns, RefusesRuns, count_in, run_in, run_told};

use crate::named::named_locals;
use crate::value_types::read_type;
use std::alloc::{AllocError, Global};
use walrus_arena::FunctionId;
use walrus_body_env::{BodyError, Validator};
use walrus_index_maps::IndicesToIds;
use walrus_pairing::type_table::{ModuleLocals, ValType};
use wasm_formats::Limited;
use wasm_reader::BinaryReader;

// A function has at most so many locals, its parameters among them.
const MOST_LOCALS: usize = 50_000;

// A count of locals, behind so many.
fn read_count(reader: &mut BinaryReader<'_>, total: usize) -> Result<u32, BodyError>
    ensures read { Parses (count_in total).parse (λ n m. n ≡ m) reader.old reader.new result }
    ensures fits { IfOk result (λ n. total + n ≤ 50000) }
{
    let offset = reader.original_position();
    let count = reader.read_var_u32()?;
    if total.saturating_add(count as usize) > MOST_LOCALS {
        return Err(BodyError::Limit {
            of: Limited::Locals,
            offset: Some(offset),
        });
    }
    Ok(count)
}

// A run behind so many locals, of which the validator is told once it was read: how many locals, and their type.
fn read_run<V: Validator>(
    alloc: Global,
    reader: &mut BinaryReader<'_>,
    indices: &IndicesToIds,
    total: usize,
    validator: &mut V,
) -> Result<(u32, ValType), BodyError>
    ensures read { Tells (run_in reader.old.window.features (length (ids indices.now).types) total).parse (run_told V.locals_step) (IsRunOf (ids indices.now).types) reader.old reader.new validator.old validator.new result }
    ensures fits { IfOk result (λ x. total + x.0 ≤ 50000) }
{
    let offset = reader.original_position();
    let count = read_count(reader, total)?;
    let (written, ty) = read_type(alloc, reader, indices)?;
    validator.define_locals(offset, count, written)?;
    Ok((count, ty))
}

// The number at this place, if it is below that one.
fn next_below(numbers: &[u32], place: usize, end: u32) -> Option<u32>
    ensures next { result ≡ next_below numbers.now place end }
    ensures fits { IfSome result (λ _. place + 1 < 2 ^ 64) }
{
    if place >= numbers.len() {
        return None;
    }
    let number = numbers[place];
    if number < end { Some(number) } else { None }
}

// The next indices, as many as there are numbers from the one up to the other, name no local.
fn skip(
    indices: &mut IndicesToIds,
    function: FunctionId,
    from: u32,
    end: u32,
) -> Result<(), AllocError>
    ensures skipped { OnOk result (ids indices.new ≡ record (ids indices.old) { locals = with_skipped function (end - from) (ids indices.old).locals }) }
    ensures refused { OnErr result (ids indices.new ≡ ids indices.old) }
{
    if from < end {
        indices.skip_locals(function, (end - from) as usize)?;
    }
    Ok(())
}

// Declares a local for each number of a run of one type, from the one up to the other: adds those that are kept, whose numbers stand from
// this place on, and has their indices name them. Gives the place behind these.
fn declare_run(
    indices: &mut IndicesToIds,
    locals: &mut ModuleLocals,
    function: FunctionId,
    numbers: &[u32],
    place: usize,
    from: u32,
    end: u32,
    ty: ValType,
) -> Result<usize, AllocError>
    requires { (kept : List Bool) × (more : List Bool) × AreNumbers numbers.now place from end kept more }
    ensures added { IfOk result (λ behind. (kept more : List Bool) → AreNumbers numbers.now place from end kept more → AddsKept function kept (repeat (length kept) (ty ∷ [])) locals.old locals.new (ids indices.old) (ids indices.new) × (drop behind numbers.now ≡ kept_numbers end more)) }
    ensures refused { OnErr result (Leaves function locals.old locals.new (ids indices.old) (ids indices.new)) }
{
    let mut place = place;
    let mut from = from;
    while let Some(number) = next_below(numbers, place, end) {
        skip(indices, function, from, number)?;
        let own = ty;
        let id = locals.add(own)?;
        indices.push_local(function, id)?;
        from = number + 1;
        place += 1;
    }
    skip(indices, function, from, end)?;
    Ok(place)
}

// Declares the locals of these runs: adds those that are kept, whose numbers are these, and has their indices name them.
fn declare_kept(
    indices: &mut IndicesToIds,
    locals: &mut ModuleLocals,
    function: FunctionId,
    runs: &[(u32, ValType)],
    numbers: &[u32],
) -> Result<(), AllocError>
    requires few { length (declared runs.now) ≤ 50000 }
    requires numbers { (kept : List Bool) × AreAll numbers.now (length (declared runs.now)) kept }
    ensures added { OnOk result ((kept : List Bool) → AreAll numbers.now (length (declared runs.now)) kept → AddsKept function kept (declared runs.now) locals.old locals.new (ids indices.old) (ids indices.new)) }
    ensures refused { OnErr result (Leaves function locals.old locals.new (ids indices.old) (ids indices.new)) }
{
    let mut place = 0;
    let mut from: u32 = 0;
    for run in runs {
        let end = from + run.0;
        place = declare_run(indices, locals, function, numbers, place, from, end, run.1)?;
        from = end;
    }
    Ok(())
}

// Adds so many locals of a type to the module, and has the function's next indices name them.
fn declare(
    indices: &mut IndicesToIds,
    locals: &mut ModuleLocals,
    function: FunctionId,
    count: u32,
    ty: ValType,
) -> Result<(), AllocError>
    ensures added { OnOk result (Adds function (repeat count (ty ∷ [])) locals.old locals.new (ids indices.old) (ids indices.new)) }
    ensures refused { OnErr result (Leaves function locals.old locals.new (ids indices.old) (ids indices.new)) }
{
    for _ in 0..count {
        let own = ty;
        let id = locals.add(own)?;
        indices.push_local(function, id)?;
    }
    Ok(())
}

// Adds all locals of these runs.
fn declare_all(
    indices: &mut IndicesToIds,
    locals: &mut ModuleLocals,
    function: FunctionId,
    runs: &[(u32, ValType)],
) -> Result<(), AllocError>
    ensures added { OnOk result (Adds function (declared runs.now) locals.old locals.new (ids indices.old) (ids indices.new)) }
    ensures refused { OnErr result (Leaves function locals.old locals.new (ids indices.old) (ids indices.new)) }
{
    for run in runs {
        declare(indices, locals, function, run.0, run.1)?;
    }
    Ok(())
}

// The runs of a body behind so many parameters, of each of which the validator is told, and how many locals there are with the parameters.
fn read_runs<V: Validator>(
    alloc: Global,
    reader: &mut BinaryReader<'_>,
    indices: &IndicesToIds,
    params: usize,
    validator: &mut V,
) -> Result<(Vec<(u32, ValType)>, usize), BodyError>
    ensures read { IfOk result (λ x. ReadsRuns (run_told V.locals_step) params reader.old reader.new (ids indices.now).types validator.old validator.new x.0.items x.1) }
    ensures refused { IfErr result (λ e. RefusesRuns (run_told V.locals_step) params reader.old (ids indices.now).types validator.old validator.new e) }
    ensures moves { Forward reader.old reader.new }
{
    let count = reader.read_var_u32()?;
    let mut runs = Vec::new(alloc);
    let mut total = params;
    for _ in 0..count {
        let (more, ty) = read_run(alloc, reader, indices, total, validator)?;
        runs.push((more, ty))?;
        total += more as usize;
    }
    Ok((runs, total))
}

// Declares the locals of these runs of a body, behind so many parameters, with which there are so many: adds those that its operators name, which
// are left to be read, or all, where the map wants all, and has the next indices of the function name them, and the others none.
fn declare_runs(
    alloc: Global,
    body: BinaryReader<'_>,
    indices: &mut IndicesToIds,
    locals: &mut ModuleLocals,
    function: FunctionId,
    params: usize,
    total: usize,
    runs: &[(u32, ValType)],
) -> Result<(), BodyError>
    requires counted { total ≡ params + length (declared runs.now) }
    requires few { (total ≡ params) ⊎ (total ≤ 50000) }
    ensures declared { OnOk result (Chooses body.entry.window.features function params (rest body.entry) (declared runs.now) locals.old locals.new (ids indices.old) (ids indices.new)) }
    ensures refused { IfErr result (λ e. e ≡ WantsMemory) }
    ensures kept { Leaves function locals.old locals.new (ids indices.old) (ids indices.new) }
{
    if indices.wants_all_locals() {
        declare_all(indices, locals, function, runs)?;
        return Ok(());
    }
    if total == params {
        return Ok(());
    }
    let numbers = named_locals(alloc, body, params as u32, (total - params) as u32)?;
    declare_kept(indices, locals, function, runs, numbers.as_slice())?;
    Ok(())
}

/// Reads the locals that a body declares, behind so many parameters: runs of a count and a type, of each of which the validator is
/// told. Those that the operators behind them name are added to the module, or all, where the map wants all; the next indices of the
/// function name them, and the others name none. So what nothing names takes no memory.
///
/// # Errors
///
/// The first that is due: as a count or a type is read; `Limit` at a count where there are more than 50,000 locals with it, before its
/// type is read; at a type `Unsupported` or `Index`; as the validator refuses a run; want of memory. Locals that were added
/// stay, and the function's next indices name them, but for at most the last. The validator was told of the runs in front of the
/// fault, and of the one that it refuses itself, of no other.
pub fn read_locals<V: Validator>(
    alloc: Global,
    reader: &mut BinaryReader<'_>,
    indices: &mut IndicesToIds,
    locals: &mut ModuleLocals,
    function: FunctionId,
    params: usize,
    validator: &mut V,
) -> Result<(), BodyError>
    ensures declared { OnOk result (Declares (run_told V.locals_step) function params reader.old reader.new (ids indices.old).types locals.old locals.new (ids indices.old) (ids indices.new) validator.old validator.new) }
    ensures refused { IfErr result (λ e. RefusesRuns (run_told V.locals_step) params reader.old (ids indices.old).types validator.old validator.new e) }
    ensures kept { Leaves function locals.old locals.new (ids indices.old) (ids indices.new) }
    ensures moves { Forward reader.old reader.new }
{
    let (runs, total) = read_runs(alloc, reader, &*indices, params, validator)?;
    declare_runs(
        alloc,
        reader.shrink(),
        indices,
        locals,
        function,
        params,
        total,
        runs.as_slice(),
    )?;
    Ok(())
}
