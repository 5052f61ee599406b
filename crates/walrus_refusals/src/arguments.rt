//! The arguments of functions.
ghost use Rattle.std.specs.Prelude.{◌≡◌, Decides, IfOk, IfSome, length};
ghost use Rattle.walrus_forms.specs.Forms.{form_of, params_of};
ghost use Rattle.walrus_types.specs.Table.{type_at};
ghost use Rattle.walrus_tree.specs.Trees.{AreDistinct};
ghost use Rattle.walrus_used.specs.walrus_module.Linking.{HasArguments};

use std::alloc::{AllocError, Global};
use walrus_arena::{IdHashSet, LocalId, LocalSpace, TypeId};
use walrus_exact::local_function::LocalFunction;
use walrus_forms::CompositeType;
use walrus_items::Type;
use walrus_types::ModuleTypes;

// Whether no id stands twice.
fn are_distinct(alloc: Global, ids: &[LocalId]) -> Result<bool, AllocError>
    ensures { IfOk result (λ distinct. Decides distinct (AreDistinct ids.now)) }
{
    walrus_arena::laws::ids_go_by_number::<LocalSpace>();
    let mut met: IdHashSet<LocalSpace> = IdHashSet::new(alloc);
    for id in ids {
        if !met.insert(*id)? {
            return Ok(false);
        }
    }
    Ok(true)
}

// How many parameters a type has.
fn param_count(ty: &Type) -> usize
    ensures { result ≡ length (params_of (form_of ty.now.kind)) }
{
    match ty.kind() {
        CompositeType::Function(ty) => ty.params().len(),
        CompositeType::Struct(_) | CompositeType::Array(_) => 0,
    }
}

// Whether there are as many as the type has parameters, where it lives.
fn are_counted(types: &ModuleTypes, ty: TypeId, count: usize) -> bool
    ensures { Decides result (IfSome (type_at types.now ty) (λ ty. count ≡ length (params_of ty.kind.form))) }
{
    if !types.contains(ty) {
        return true;
    }
    count == param_count(types.get(ty))
}

/// Whether the arguments are distinct, one for each parameter.
///
/// # Errors
///
/// Want of memory.
pub(crate) fn has_arguments(
    alloc: Global,
    types: &ModuleTypes,
    local: &LocalFunction,
) -> Result<bool, AllocError>
    ensures { IfOk result (λ ok. Decides ok (HasArguments types.now local.now)) }
{
    if !are_counted(types, local.ty(), local.args.len()) {
        return Ok(false);
    }
    are_distinct(alloc, local.args.as_slice())
}
