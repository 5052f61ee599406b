//! Which locals the operators of a body name.

ghost use Rattle.std.specs.Prelude.{◌≡◌, ◌≤◌, ◌<◌, ◌∷◌, ◌++◌, [], All, Bool, List, ℕ, IfErr, IfOk, OnOk, length, replicate, slice_set, false, true};
ghost use Rattle.walrus_operators.specs.Operators.{ReadsOperator, seen};
ghost use Rattle.walrus_body_nesting.specs.walrus_body_env.declared.error.BodyError.TheVariants.{Memory as WantsMemory};
ghost use Rattle.walrus_pairing.specs.wasm_operators.Operators.{Seen};
ghost use Rattle.wasm_reader.specs.Cursor.{rest};
ghost use Rattle.walrus_body_locals.specs.Named.{AreAll, AreOperators, Notes, Steps, among, kept_numbers, locals_of, named_of, one_of};

use crate::class::{Class, next_class};
use std::alloc::{AllocError, Global};
use walrus_body_env::BodyError;
use walrus_operators::operator_table::Kind;
use walrus_operators::{Immediates, Operator, OperatorError, OperatorReader};
use wasm_reader::BinaryReader;

// Where there are more locals than this many times the names of some, these are put in order, else the locals have flags.
const FEW: usize = 16;

// Notes the local of this number, if it is one of so many behind so many parameters.
#[inline(always)]
fn note(numbers: &mut Vec<u32>, params: u32, count: u32, number: u32) -> Result<(), AllocError>
    ensures { OnOk result (Notes params count (number ∷ []) numbers.old.items numbers.new.items) }
{
    if number < params {
        return Ok(());
    }
    let own = number - params;
    if own >= count {
        return Ok(());
    }
    numbers.push(own)?;
    Ok(())
}

// So many flags, of which none is set.
fn no_flags(alloc: Global, count: usize) -> Result<Vec<bool>, AllocError>
    ensures { IfOk result (λ flags. flags.items ≡ replicate count false) }
{
    let mut flags = Vec::new(alloc);
    flags.resize(count, false)?;
    Ok(flags)
}

// Sets the flag of this number, if there is one.
#[inline(always)]
fn flag(flags: &mut Vec<bool>, at: usize)
    ensures { flags.new.items ≡ slice_set flags.old.items at true }
{
    if at < flags.len() {
        flags[at] = true;
    }
}

// Adds the number, if its flag is set.
#[inline(always)]
fn keep(numbers: &mut Vec<u32>, at: usize, flag: bool) -> Result<(), AllocError>
    requires { at ≤ 50000 }
    ensures { OnOk result (numbers.new.items ≡ numbers.old.items ++ kept_numbers at (flag ∷ [])) }
{
    if flag {
        numbers.push(at as u32)?;
    }
    Ok(())
}

// The numbers of those that have a flag.
fn flagged(alloc: Global, flags: &[bool]) -> Result<Vec<u32>, AllocError>
    requires { length flags.now ≤ 50000 }
    ensures { IfOk result (λ numbers. numbers.items ≡ kept_numbers 0 flags.now) }
{
    let mut numbers = Vec::new(alloc);
    for at in 0..flags.len() {
        keep(&mut numbers, at, flags[at])?;
    }
    Ok(numbers)
}

// Of so many numbers those that are among these, by flags.
fn by_flags(alloc: Global, count: u32, numbers: &[u32]) -> Result<Vec<u32>, AllocError>
    requires { count ≤ 50000 }
    ensures { IfOk result (λ kept. kept.items ≡ kept_numbers 0 (among count numbers.now)) }
{
    let mut flags = no_flags(alloc, count as usize)?;
    for number in numbers {
        flag(&mut flags, *number as usize);
    }
    flagged(alloc, flags.as_slice())
}

// These numbers, each once and rising.
fn in_order(mut numbers: Vec<u32>) -> Result<Vec<u32>, AllocError>
    ensures { IfOk result (λ kept. (count : ℕ) → All (λ n. n < count) numbers.items → kept.items ≡ kept_numbers 0 (among count numbers.items)) }
{
    numbers.sort()?;
    numbers.dedup();
    Ok(numbers)
}

// Of so many numbers those that are among these.
fn distinct(alloc: Global, count: u32, numbers: Vec<u32>) -> Result<Vec<u32>, AllocError>
    requires few { count ≤ 50000 }
    requires below { All (λ n. n < count) numbers.items }
    ensures { IfOk result (λ kept. kept.items ≡ kept_numbers 0 (among count numbers.items)) }
{
    if count as usize / FEW <= numbers.len() {
        return by_flags(alloc, count, numbers.as_slice());
    }
    in_order(numbers)
}

// The local that an operator names, if it names one.
#[inline(always)]
fn local_of(op: &Operator) -> Option<u32>
    ensures { locals_of (seen op.now) ≡ one_of result }
{
    match op.immediates {
        Immediates::Local(number) => Some(number),
        _ => None,
    }
}

// The next operator.
#[inline(always)]
fn next(alloc: Global, reader: &mut OperatorReader<'_>) -> Result<Operator, OperatorError>
    ensures { ReadsOperator reader.old.window.features reader.old reader.new result }
{
    match next_class(&*reader) {
        Class::Local => reader.read_as(Kind::Local, alloc),
        Class::Global => reader.read_as(Kind::Global, alloc),
        Class::Load => reader.read_as(Kind::Access, alloc),
        Class::Store => reader.read_as(Kind::Access, alloc),
        Class::I32 => reader.read_as(Kind::I32, alloc),
        Class::I64 => reader.read_as(Kind::I64, alloc),
        Class::F64 => reader.read_as(Kind::F64, alloc),
        Class::Plain => reader.read_as(Kind::Bare, alloc),
        Class::Chooses => reader.read_as(Kind::Label, alloc),
        Class::Calls => reader.read_as(Kind::Function, alloc),
        Class::End => reader.read_as(Kind::Bare, alloc),
        Class::Else => reader.read_as(Kind::Bare, alloc),
        Class::Opens(_) => reader.read_as(Kind::Block, alloc),
        Class::Rare => reader.read(alloc),
    }
}

// Notes the local that the next operator names, if it names one. Says whether there was an operator.
#[inline(always)]
fn step(
    alloc: Global,
    reader: &mut OperatorReader<'_>,
    numbers: &mut Vec<u32>,
    params: u32,
    count: u32,
) -> Result<bool, BodyError>
    ensures steps { IfOk result (Steps params count reader.old reader.new numbers.old.items numbers.new.items) }
    ensures refused { IfErr result (λ e. e ≡ WantsMemory) }
{
    match next(alloc, reader) {
        Ok(op) => {
            if let Some(number) = local_of(&op) {
                note(numbers, params, count, number)?;
            }
            Ok(true)
        }
        Err(OperatorError::Read(error)) => match BodyError::from(error) {
            BodyError::Memory => Err(BodyError::Memory),
            _ => Ok(false),
        },
        Err(OperatorError::Unknown(_)) => Ok(false),
    }
}

/// Of so many locals that a body declares, behind so many parameters, those that its operators name: their numbers, by which they rise, the
/// first one's being 0. What it takes is linear in the operators, but for putting names in order.
///
/// # Errors
///
/// Want of memory.
pub(crate) fn named_locals(
    alloc: Global,
    body: BinaryReader<'_>,
    params: u32,
    count: u32,
) -> Result<Vec<u32>, BodyError>
    requires { count ≤ 50000 }
    ensures named { IfOk result (λ numbers. (kept : List Bool) × AreAll numbers.items count kept × ((ops : List Seen) → AreOperators body.entry.window.features (rest body.entry) ops → kept ≡ named_of params count ops)) }
    ensures refused { IfErr result (λ e. e ≡ WantsMemory) }
{
    let mut numbers = Vec::new(alloc);
    let mut reader = OperatorReader::new(body);
    while step(alloc, &mut reader, &mut numbers, params, count)? {}
    let kept = distinct(alloc, count, numbers)?;
    Ok(kept)
}
