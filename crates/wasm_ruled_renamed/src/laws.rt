//! Laws: functions with nothing to do, whose contracts hold of all bodies and constant expressions.

ghost use Rattle.wasm_ruled_renamed.specs.Bodies.{NormalBodiesAreRuled, RenamedBodiesAreRuled, SameRenamedIsNormal};
ghost use Rattle.wasm_ruled_renamed.specs.Renamed.{RenamedExprsAreKnown, RenamedOffsetsFit, RenamedOperatorsAreRuled};
ghost use Rattle.wasm_ruled_renamed.specs.Rows.{IsWorked};
ghost use Rattle.wasm_ruled_renamed.specs.Types.{PicksGoToPicks, RetypedTypesServe};

use walrus_forms::laws::same_kind_is_equality;
use wasm_ruled_normal::laws::normal_operators_are_ruled;

/// Operators and constant expressions that meet the rules meet those of another file, renamed, where what they name has its image there, memories with
/// addresses of 64 bits and types that blocks may have such ones.
pub fn renamed_operators_are_ruled()
    ensures operators { RenamedOperatorsAreRuled }
    ensures exprs { RenamedExprsAreKnown }
    ensures offsets { RenamedOffsetsFit }
{}

/// Types that stand in another file, renamed, serve blocks as before, and where they stand in their order, picks go to picks.
pub fn retyped_types_serve()
    ensures serve { RetypedTypesServe }
    ensures picks { PicksGoToPicks }
{
    same_kind_is_equality();
}

/// A body that meets the rules meets them in its normal form, and renamed those of another file to which each item goes; where each number stays, the
/// renamed normal form is the normal form.
pub fn normal_bodies_are_ruled()
    ensures own { NormalBodiesAreRuled }
    ensures renamed { RenamedBodiesAreRuled }
    ensures same { SameRenamedIsNormal }
{
    normal_operators_are_ruled();
}

/// A body that meets the rules, operands aside, with its normal form, computed.
pub fn worked_body()
    ensures { IsWorked }
{}
