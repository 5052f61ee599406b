//! Laws: functions with nothing to do, whose contracts hold of all operators and modules.

ghost use Rattle.wasm_run_names.specs.Asked.{OperatorsNameWhatIsAsked};
ghost use Rattle.wasm_run_names.specs.Picks.{BlockTypesStand, PicksOfModulesKeep};

use walrus_forms::laws::same_kind_is_equality;

/// The picks of the grammar keep the parameters and results of block types, where types that stand for the same type are renamed to one;
/// a block type whose type stands in another module, renamed, has there its parameters and results, renamed.
pub fn block_types_keep_parameters_and_results()
    ensures picks { PicksOfModulesKeep }
    ensures renamed { BlockTypesStand }
{
    same_kind_is_equality();
}

/// An operator that has a spelling has a flow, and names the label, labels or function that its flow asks for.
pub fn operators_name_what_is_asked()
    ensures { OperatorsNameWhatIsAsked }
{}
