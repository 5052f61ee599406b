//! What a function has before its body is read: a local for each parameter, and the type of its body's own block.

ghost use Rattle.std.specs.Prelude.{◌≡◌, IfOk, IfSome};
ghost use Rattle.walrus_index_maps.specs.Views.{ids};
ghost use Rattle.walrus_module_env.specs.walrus_body_parser.walrus_body_stack.walrus_instr.walrus_types.Table.{Merges};
ghost use Rattle.walrus_forms.specs.Kinds.{entry_kind};
ghost use Rattle.walrus_function_types.specs.FunctionTypes.{params_at, results_at};
ghost use Rattle.walrus_module_bodies.specs.Steps.{HasArguments};

use std::alloc::{AllocError, Global};
use walrus_arena::{FunctionId, LocalId, TypeId};
use walrus_function_types::function_at;
use walrus_index_maps::IndicesToIds;
use walrus_module_env::ModuleEnv;
use walrus_module_env::body_env::BodyEnv;
use walrus_module_env::body_env::instr::type_table::{ModuleLocals, ModuleTypes, ValType};

/// Adds a local for each of these parameters, which the next numbers of the function name.
pub(crate) fn add_arguments(
    alloc: Global,
    params: &[ValType],
    function: FunctionId,
    indices: &mut IndicesToIds,
    locals: &mut ModuleLocals,
) -> Result<Vec<LocalId>, AllocError>
    ensures { IfOk result (λ args. HasArguments function params.now locals.old locals.new (ids indices.old) (ids indices.new) args.items) }
{
    let mut args = Vec::with_capacity(alloc, params.len())?;
    for ty in params {
        let own = *ty;
        let id = locals.add(own)?;
        indices.push_local(function, id)?;
        args.push(id)?;
    }
    Ok(args)
}

// The parameters of a live function type; none of another.
pub(crate) fn params_of<'e>(env: &'e ModuleEnv<'_>, ty: TypeId) -> &'e [ValType]
    ensures { IfSome (params_at env.now.types.now ty) (λ params. result.now ≡ params) }
{
    match env.params(ty) {
        Some(params) => params,
        None => &[],
    }
}

// The results of a live function type, copied; none of another.
fn results_of(alloc: Global, types: &ModuleTypes, ty: TypeId) -> Result<Vec<ValType>, AllocError>
    ensures { IfOk result (λ results. IfSome (results_at types.now ty) (λ tys. results.items ≡ tys)) }
{
    match function_at(types, ty) {
        Some(ty) => Vec::from_slice(alloc, ty.results()),
        None => Ok(Vec::new(alloc)),
    }
}

/// The type of the own block of a body whose function has this type.
pub(crate) fn entry_type(
    alloc: Global,
    types: &mut ModuleTypes,
    ty: TypeId,
) -> Result<TypeId, AllocError>
    ensures { IfOk result (λ entry. IfSome (results_at types.old ty) (λ results. Merges (entry_kind results) entry types.old types.new)) }
{
    if function_at(&*types, ty).is_some() {
        if let Some(entry) = types.entry_ty(ty) {
            return Ok(entry);
        }
    }
    let results = results_of(alloc, &*types, ty)?;
    types.add_entry_ty(results.as_slice())
}
