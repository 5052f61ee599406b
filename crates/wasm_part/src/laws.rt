//! Laws: functions with nothing to do but to call others, whose contracts hold of all modules.

ghost use Rattle.wasm_part.specs.Agree.{PartsAgree};
ghost use Rattle.wasm_part.specs.Closed.{PartsAreRuled};
ghost use Rattle.wasm_part.specs.Emitted.{EmittedTypesStand, ReadBackTypesLead};
ghost use Rattle.wasm_part.specs.Handlers.{HandlersAreMissing};
ghost use Rattle.wasm_part.specs.Kept.{KeptIsClosed, PickedTypesServe};
ghost use Rattle.wasm_part.specs.Open.{SpelledBlocksOpen};
ghost use Rattle.wasm_part.specs.Written.{KeptPartsAreRuled};

use walrus_forms::laws::same_kind_is_equality;
use walrus_types::laws::parsing_carries_same;
use wasm_merged_modules::laws::new_kinds_stand_behind;
use wasm_normal_modules::laws::normal_forms_of_read_modules_are_ruled;
use wasm_ruled_normal::laws::normal_operators_are_ruled;

/// An operator that has a spelling opens a block, or has no block type.
pub fn blocks_open()
    ensures { SpelledBlocksOpen }
{}

/// The types that a table writes stand, renamed, at their places in what is written, and name types that are there.
pub fn emitted_types_stand()
    ensures { EmittedTypesStand }
{}

/// Types of a module of which none stands for an earlier one stand for themselves.
pub fn read_back_types_lead()
    ensures { ReadBackTypesLead }
{}

/// The part of a module that meets the rules meets them, renumbered, where what its items name is in it.
pub fn parts_are_ruled()
    ensures { PartsAreRuled }
{}

/// The part that has just what is kept has all that its items name.
pub fn kept_is_closed()
    ensures { KeptIsClosed }
{}

/// Block types that are their own picks have picks in the part, where its types stand renamed, each for itself.
pub fn picked_types_serve()
    ensures { PickedTypesServe }
{
    same_kind_is_equality();
}

/// Modules in which the listed slots agree have one part.
pub fn parts_agree()
    ensures { PartsAgree }
{}

/// What is kept of a module that meets the rules meets them, renumbered, with its types as a table writes them.
pub fn kept_parts_are_ruled()
    ensures { KeptPartsAreRuled }
{
    emitted_types_stand();
    read_back_types_lead();
    kept_is_closed();
    picked_types_serve();
    parts_are_ruled();
}

/// The types that the handlers of a file have and its merged types haven't name types that are there, and no type of the file has one of them.
pub fn handlers_are_missing()
    ensures { HandlersAreMissing }
{
    normal_operators_are_ruled();
    new_kinds_stand_behind();
    parsing_carries_same();
    normal_forms_of_read_modules_are_ruled();
}
