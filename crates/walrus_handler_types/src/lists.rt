//! The parameters and results of a handler.

ghost use Rattle.std.specs.Prelude.{◌≡◌, IfOk, map, option_copied};
ghost use Rattle.std.specs.Option.{option_map};
ghost use Rattle.walrus_function_types.specs.FunctionTypes.{results_at};
ghost use Rattle.walrus_handlers.specs.walrus_body_steps.walrus_body_rules.Sights.{value_list};
ghost use Rattle.walrus_handler_types.specs.Giving.{block_results, caught};

use std::alloc::{AllocError, Global};
use walrus_arena::TypeId;
use walrus_function_types::function_at;
use walrus_handlers::tree::builder::tree_walks::instr::InstrSeqType;
use walrus_handlers::tree::builder::tree_walks::instr::type_table::{ModuleTypes, ValType};

// The parameters of a handler of a tag of this type, or of all tags.
pub(crate) fn caught(
    alloc: Global,
    types: &ModuleTypes,
    tag: Option<TypeId>,
) -> Result<Option<Vec<ValType>>, AllocError>
    ensures { IfOk result (λ list. option_map (λ tys. tys.items) list ≡ caught types.now tag) }
{
    let Some(id) = tag else {
        return Ok(Some(Vec::new(alloc)));
    };
    match function_at(types, id) {
        Some(ty) => Ok(Some(Vec::from_slice(alloc, ty.params())?)),
        None => Ok(None),
    }
}

// The results of a function type.
fn function_results(
    alloc: Global,
    types: &ModuleTypes,
    id: TypeId,
) -> Result<Option<Vec<ValType>>, AllocError>
    ensures { IfOk result (λ list. option_map (λ tys. tys.items) list ≡ results_at types.now id) }
{
    match function_at(types, id) {
        Some(ty) => Ok(Some(Vec::from_slice(alloc, ty.results())?)),
        None => Ok(None),
    }
}

// A list of at most one type.
fn value_list(alloc: Global, ty: Option<ValType>) -> Result<Vec<ValType>, AllocError>
    ensures { IfOk result (λ list. list.items ≡ value_list ty) }
{
    match ty {
        None => Ok(Vec::new(alloc)),
        Some(ty) => {
            let one = [ty];
            Vec::from_slice(alloc, &one)
        }
    }
}

// The results of a block of this type.
pub(crate) fn block_results(
    alloc: Global,
    types: &ModuleTypes,
    block: InstrSeqType,
) -> Result<Option<Vec<ValType>>, AllocError>
    ensures { IfOk result (λ list. option_map (λ tys. tys.items) list ≡ block_results types.now block) }
{
    match block {
        InstrSeqType::Simple(ty) => Ok(Some(value_list(alloc, ty)?)),
        InstrSeqType::MultiValue(id) => function_results(alloc, types, id),
    }
}
