//! Laws: functions with nothing to do, whose contracts hold of all modules.

ghost use Rattle.wasm_normal_modules.specs.Modules.{BlockTypesAreTheirPicks, NormalFormsOfReadModulesAreRuled, NormalModulesAreRuled, OwnNormalFormsAreRuled, ReadModulesBringNoTypes, ReadModulesMeetRules, RulesHoldCounted};
ghost use Rattle.wasm_normal_modules.specs.Numbered.{NamesDecide, NumberedOperatorsAreNormal};

use wasm_ruled_renamed::laws::{
    normal_bodies_are_ruled, renamed_operators_are_ruled, retyped_types_serve,
};
use wasm_ruled_renamed::ruled_normal::laws::normal_operators_are_ruled;

/// The normal form of a module that meets the rules meets them, with its types sent elsewhere.
pub fn normal_modules_are_ruled()
    ensures { NormalModulesAreRuled }
{
    renamed_operators_are_ruled();
    retyped_types_serve();
    normal_bodies_are_ruled();
}

/// In the normal form of a module that meets the rules each block type is its own pick, where its types are sent in their order.
pub fn block_types_are_their_picks()
    ensures { BlockTypesAreTheirPicks }
{
    normal_operators_are_ruled();
    retyped_types_serve();
}

/// The normal form of a module that meets the rules meets them, with its types as they are, and so does that of a module that is read, taken to have
/// a data count section: what meets the rules without one meets them with one.
pub fn normal_forms_of_read_modules_are_ruled()
    ensures own { OwnNormalFormsAreRuled }
    ensures plain { ReadModulesBringNoTypes }
    ensures counted { RulesHoldCounted }
    ensures rules { ReadModulesMeetRules }
    ensures ruled { NormalFormsOfReadModulesAreRuled }
{
    normal_modules_are_ruled();
    block_types_are_their_picks();
}

/// Renamings that agree on what an operator names rename it alike; so operators of a normal form that were named otherwise, and then numbered, are those of
/// the renamed normal form.
pub fn numbered_operators_are_normal()
    ensures decide { NamesDecide }
    ensures normal { NumberedOperatorsAreNormal }
{
    normal_operators_are_ruled();
}
