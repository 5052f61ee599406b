//! Building a function in the place of another.
ghost use Rattle.std.specs.Prelude.{◌≡◌, ◌+◌, ◌++◌, ℕ, length, take, IfOk, OnOk, OnErr};
ghost use Rattle.std.specs.List.{range_with_len};
ghost use Rattle.walrus_types.specs.Table.{IsFunctionType};
ghost use Rattle.walrus_module.specs.Replaced.{IsBuilt, MayAddTypes, arguments, params_at, results_at};

use std::alloc::{AllocError, Global};
use walrus_arena::{LocalId, TypeId};
use walrus_builder::{FunctionBuilder, InstrSeqBuilder};
use walrus_collections::local_function::LocalFunction;
use walrus_forms::ValType;
use walrus_items::ModuleLocals;
use walrus_types::ModuleTypes;

// A function of these parameters and results with these arguments, whose body the closure fills.
fn build_function<F: FnOnce(&mut InstrSeqBuilder, &[LocalId]) -> Result<(), AllocError> + Drop>(
    alloc: Global,
    types: &mut ModuleTypes,
    params: &[ValType],
    results: &[ValType],
    args: Vec<LocalId>,
    build: F,
) -> Result<LocalFunction, AllocError>
    requires { F.IsAlwaysCallable build }
    ensures built { IfOk result (λ f. IsBuilt F.FnOnce build params.now results.now args.items f types.old types.new) }
    ensures left { OnErr result (MayAddTypes params.now results.now types.old types.new) }
{
    let mut builder = FunctionBuilder::new(alloc, types, params, results)?;
    build(builder.func_body(), args.as_slice())?;
    Ok(LocalFunction::new(args, builder))
}

// The parameters of a live function type.
fn params_of(alloc: Global, types: &ModuleTypes, ty: TypeId) -> Result<Vec<ValType>, AllocError>
    requires { IsFunctionType types.now ty }
    ensures { IfOk result (λ params. params.items ≡ params_at types.now ty) }
{
    Vec::from_slice(alloc, types.params(ty))
}

// The results of a live function type.
fn results_of(alloc: Global, types: &ModuleTypes, ty: TypeId) -> Result<Vec<ValType>, AllocError>
    requires { IsFunctionType types.now ty }
    ensures { IfOk result (λ results. results.items ≡ results_at types.now ty) }
{
    Vec::from_slice(alloc, types.results(ty))
}

/// A function of this type with these arguments, whose body the closure fills.
pub(crate) fn build_like<
    F: FnOnce(&mut InstrSeqBuilder, &[LocalId]) -> Result<(), AllocError> + Drop,
>(
    alloc: Global,
    types: &mut ModuleTypes,
    ty: TypeId,
    args: Vec<LocalId>,
    build: F,
) -> Result<LocalFunction, AllocError>
    requires callable { F.IsAlwaysCallable build }
    requires typed { IsFunctionType types.old ty }
    ensures built { IfOk result (λ f. IsBuilt F.FnOnce build (params_at types.old ty) (results_at types.old ty) args.items f types.old types.new) }
    ensures left { OnErr result (MayAddTypes (params_at types.old ty) (results_at types.old ty) types.old types.new) }
{
    let params = params_of(alloc, types, ty)?;
    let results = results_of(alloc, types, ty)?;
    build_function(alloc, types, &params, &results, args, build)
}

/// Adds a local for each parameter of a live function type, and gives their ids.
pub(crate) fn add_arguments_of(
    alloc: Global,
    locals: &mut ModuleLocals,
    types: &ModuleTypes,
    ty: TypeId,
) -> Result<Vec<LocalId>, AllocError>
    requires { IsFunctionType types.now ty }
    ensures ids { IfOk result (λ args. args.items ≡ range_with_len (length locals.old) (length (params_at types.now ty))) }
    ensures added { OnOk result (locals.new ≡ locals.old ++ arguments (length locals.old) (params_at types.now ty)) }
    ensures part { (some : ℕ) × (locals.new ≡ locals.old ++ arguments (length locals.old) (take some (params_at types.now ty))) }
{
    let params = params_of(alloc, types, ty)?;
    add_arguments(alloc, locals, &params)
}

// Adds a local for each parameter, and gives their ids.
fn add_arguments(
    alloc: Global,
    locals: &mut ModuleLocals,
    params: &[ValType],
) -> Result<Vec<LocalId>, AllocError>
    ensures ids { IfOk result (λ args. args.items ≡ range_with_len (length locals.old) (length params.now)) }
    ensures added { OnOk result (locals.new ≡ locals.old ++ arguments (length locals.old) params.now) }
    ensures part { (some : ℕ) × (locals.new ≡ locals.old ++ arguments (length locals.old) (take some params.now)) }
{
    let mut args = Vec::new(alloc);
    for ty in params {
        args.push(locals.add(*ty)?)?;
    }
    Ok(args)
}
