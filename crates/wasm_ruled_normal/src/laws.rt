//! Laws: functions with nothing to do, whose contracts hold of all bodies.

ghost use Rattle.wasm_ruled_normal.specs.Normal.{BlockTypesArePicked, NormalOperatorsAreRuled, PicksArePicks};

use walrus_forms::laws::same_kind_is_equality;

/// Operators that meet the rules of bodies meet them in their normal form, in which each block type is its own pick.
pub fn normal_operators_are_ruled()
    ensures picks { PicksArePicks }
    ensures operators { NormalOperatorsAreRuled }
    ensures picked { BlockTypesArePicked }
{
    same_kind_is_equality();
}
