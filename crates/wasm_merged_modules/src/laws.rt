//! Laws: functions with nothing to do, whose contracts hold of all modules.

ghost use Rattle.wasm_merged_modules.specs.Merged.{MergedFilesAreRuled, MergedModulesAreRuled, MissingKindsAreNew, NewKindsStandBehind, NoneStandBehind, TypesAreMerged, UnfoundKindsAreMissing};

use walrus_forms::laws::same_kind_is_equality;
use walrus_types::laws::parsing_carries_same;
use wasm_normal_modules::laws::{block_types_are_their_picks, normal_modules_are_ruled};

/// The types of a file stand among its merged types, in their order; nothing has to stand behind these.
pub fn types_are_merged()
    ensures none { NoneStandBehind }
    ensures merged { TypesAreMerged }
{
    parsing_carries_same();
}

/// Single types of new kinds may stand behind merged types, as those of handlers do, and kinds that no type has are new, each once.
pub fn new_kinds_stand_behind()
    ensures behind { NewKindsStandBehind }
    ensures missing { MissingKindsAreNew }
    ensures unfound { UnfoundKindsAreMissing }
{
    parsing_carries_same();
    same_kind_is_equality();
}

/// The normal form of a module that meets the rules meets them with its types merged.
pub fn merged_modules_are_ruled()
    ensures { MergedModulesAreRuled }
{
    types_are_merged();
    normal_modules_are_ruled();
    block_types_are_their_picks();
}

/// The normal form of a module that is read meets the rules with its types merged, and with single types of missing kinds behind these.
pub fn merged_files_are_ruled()
    ensures { MergedFilesAreRuled }
{
    new_kinds_stand_behind();
    merged_modules_are_ruled();
}
