//! Function types by id.

ghost use Rattle.std.specs.Prelude.{◌≡◌, map, option_copied};
ghost use Rattle.std.specs.Option.{option_map};
ghost use Rattle.walrus_types.specs.Items.{item_of};
ghost use Rattle.walrus_types.specs.Table.{type_at};
ghost use Rattle.walrus_function_types.specs.FunctionTypes.{params_at, results_at};

use walrus_types::arena::TypeId;
use walrus_types::{FunctionType, ModuleTypes, Type};

// The live type of an id.
fn type_at(types: &ModuleTypes, id: TypeId) -> Option<&Type>
    ensures { option_map item_of (option_copied result) ≡ type_at types.now id }
{
    if types.contains(id) {
        Some(types.get(id))
    } else {
        None
    }
}

/// The live function type of an id, if there is one.
pub fn function_at(types: &ModuleTypes, id: TypeId) -> Option<&FunctionType>
    ensures params { option_map (λ ty. ty.params.items) (option_copied result) ≡ params_at types.now id }
    ensures results { option_map (λ ty. ty.results.items) (option_copied result) ≡ results_at types.now id }
{
    match type_at(types, id) {
        Some(ty) => ty.as_function(),
        None => None,
    }
}
