//! How many items of each kind a module has.

ghost use Rattle.std.specs.Prelude.{◌≡◌, ◌+◌, IfErr, IfOk, length};
ghost use Rattle.walrus_arena.specs.Arena.{ids};
ghost use Rattle.walrus_errors.specs.declared.error.ModuleError.TheVariants.{Memory};
ghost use Rattle.walrus_module.specs.Parts.{parts};
ghost use Rattle.walrus_module.specs.walrus_collections.LookUps.{items};
ghost use Rattle.walrus_counts.specs.Counts.{AreCounts, AreCountsWith, HasNoTree, HaveNoTree, IsCause, kind_size, operator_count, type_count};

use inspect_lines::Counts;
use std::alloc::Global;
use walrus_body_env::BodyError;
use walrus_errors::{ModuleError, Result};
use walrus_module::Module;
use walrus_module::collections::{Collection, ModuleFunctions};
use walrus_module::module_items::FunctionKind;
use walrus_types::ModuleTypes;

// The sum. What is counted is held in memory, so there are never 2^64 of it.
fn plus(count: u64, more: u64) -> Result<u64>
    ensures sum { IfOk result (λ n. n ≡ count + more) }
    ensures refused { IfErr result (λ e. e ≡ Memory) }
{
    match count.checked_add(more) {
        Some(sum) => Ok(sum),
        None => Err(ModuleError::Memory),
    }
}

// The live types, but for entry types.
fn type_count(types: &ModuleTypes) -> Result<u64>
    ensures counted { IfOk result (λ n. n ≡ type_count types.now) }
    ensures refused { IfErr result (λ e. e ≡ Memory) }
{
    let mut count = 0;
    for ty in types.iter() {
        if !ty.is_entry() {
            count = plus(count, 1)?;
        }
    }
    Ok(count)
}

// The live items of a collection.
fn live_count<T, S>(items: &Collection<T, S>) -> Result<u64>
    ensures counted { IfOk result (λ n. n ≡ length (ids items.now)) }
    ensures refused { IfErr result (λ e. e ≡ Memory) }
{
    let mut count = 0;
    for _id in items.ids() {
        count = plus(count, 1)?;
    }
    Ok(count)
}

// The size of a function's body, if it has one.
fn size_of(alloc: Global, kind: &FunctionKind) -> Result<u64>
    ensures size { IfOk result (λ size. size ≡ kind_size kind.now) }
    ensures refused { IfErr result (IsCause (HasNoTree kind.now)) }
{
    match kind {
        FunctionKind::Local(function) => match function.size(alloc) {
            Ok(size) => Ok(size),
            Err(BodyError::NoTree) => Err(ModuleError::NoTree),
            Err(_) => Err(ModuleError::Memory),
        },
        FunctionKind::Import(_) | FunctionKind::Uninitialized(_) => Ok(0),
    }
}

// The operators of all bodies.
#[tactic(auto, using(crate::proofs::CauseLemmas::wanted))]
fn operator_count(alloc: Global, functions: &ModuleFunctions) -> Result<u64>
    ensures counted { IfOk result (λ n. n ≡ operator_count functions.now) }
    ensures refused { IfErr result (IsCause (HaveNoTree (items functions.now))) }
{
    let mut count = 0;
    for function in functions.iter() {
        let size = size_of(alloc, &function.kind)?;
        count = plus(count, size)?;
    }
    Ok(count)
}

// How many items of each kind live in the module, if its bodies have so many operators.
fn count_items<B>(module: &Module<B>, operators: u64) -> Result<Counts>
    ensures counted { IfOk result (AreCountsWith operators (parts module.now)) }
    ensures refused { IfErr result (λ e. e ≡ Memory) }
{
    Ok(Counts {
        types: type_count(&module.types)?,
        functions: live_count(&module.funcs)?,
        tables: live_count(&module.tables)?,
        memories: live_count(&module.memories)?,
        tags: live_count(&module.tags)?,
        globals: live_count(&module.globals)?,
        elements: live_count(&module.elements)?,
        data: live_count(&module.data_segments)?,
        imports: live_count(&module.imports)?,
        exports: live_count(&module.exports)?,
        operators,
    })
}

/// How many items of each kind live in the module. Goes through all of them, and through all bodies.
///
/// # Errors
///
/// `NoTree` only where the sequences of a body form no tree; else want of memory alone.
#[tactic(auto, using(crate::proofs::CauseLemmas::wanted))]
pub fn count<B>(alloc: Global, module: &Module<B>) -> Result<Counts>
    ensures counted { IfOk result (AreCounts (parts module.now)) }
    ensures refused { IfErr result (IsCause (HaveNoTree (items module.now.funcs))) }
{
    let operators = operator_count(alloc, &module.funcs)?;
    let counts = count_items(module, operators)?;
    Ok(counts)
}
