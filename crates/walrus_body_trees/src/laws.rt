//! Laws: functions with nothing to do, whose contracts hold of all bodies that are read.
ghost use Rattle.walrus_body_trees.specs.Laws.{BodiesAreTrees, BodiesHoldTheirs, BodiesMeanTheirs};

/// The sequences that stand for the normal form of a body that meets the grammar form a tree, in which each label names a sequence around it.
pub fn bodies_are_trees()
    ensures { BodiesAreTrees }
{
    walrus_pairing::laws::operators_come_back();
    wasm_operators::laws::operators_in_range_are_spelled();
}

/// Such a body means that normal form: each operator of its text is the normal form's, with each index renamed to the id that it names, at
/// the place that it carries.
pub fn bodies_mean_their_normal_form()
    ensures { BodiesMeanTheirs }
{
    walrus_pairing::laws::operators_come_back();
    wasm_operators::laws::operators_in_range_are_spelled();
    walrus_tree::laws::trees_are_nested();
    walrus_tree::laws::text_is_plain();
}

/// Such a body has as many operators, those that only mark where sequences end aside, as its sequences hold instructions.
pub fn bodies_hold_their_operators()
    ensures { BodiesHoldTheirs }
{
    walrus_pairing::laws::operators_come_back();
    wasm_operators::laws::operators_in_range_are_spelled();
    walrus_tree::laws::trees_are_nested();
    walrus_tree::laws::text_is_plain();
}
