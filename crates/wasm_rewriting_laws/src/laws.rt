//! Laws: functions with nothing to do but to call others, whose contracts hold of all modules.

ghost use Rattle.wasm_rewriting_laws.specs.Fall.{WrittenFunctionsFall};
ghost use Rattle.wasm_rewriting_laws.specs.Rewriting.{AlikeAreRewrittenAlike, PaddingIsDropped, RewritingIsTold};
ghost use Rattle.wasm_rewriting_laws.specs.Stay.{WrittenTypesStay};
ghost use Rattle.wasm_rewriting_laws.specs.Told.{PlanIsTold};

use wasm_module_bytes::laws::modules_have_shortest;
use wasm_modules::laws::reads_once;
use wasm_normal_modules::laws::numbered_operators_are_normal;
use wasm_part::laws::{emitted_types_stand, handlers_are_missing, kept_is_closed};
use wasm_rewritten::laws::{
    files_name_their_locals, read_files_are_orderly, rewritten_runs_correspond,
};

/// The part that is written of a module is told by it: plans that write what is kept of it, in order, list the same items and give one part.
pub fn plan_is_told()
    ensures { PlanIsTold }
{
    numbered_operators_are_normal();
    kept_is_closed();
}

/// What bytes are rewritten to is told by them: the bytes that are written and, where they are wanted, the pairs of places.
pub fn rewriting_is_told()
    ensures { RewritingIsTold }
{
    handlers_are_missing();
    rewritten_runs_correspond();
    read_files_are_orderly();
    files_name_their_locals();
    reads_once();
    plan_is_told();
}

/// Inputs that differ in the padding of numbers alone are rewritten to the same bytes; so are all that read as one module, places of operators aside.
pub fn padding_is_dropped()
    ensures alike { AlikeAreRewrittenAlike }
    ensures padding { PaddingIsDropped }
{
    handlers_are_missing();
    rewritten_runs_correspond();
    read_files_are_orderly();
    files_name_their_locals();
    reads_once();
    modules_have_shortest();
    plan_is_told();
}

/// What is written of a file has its types merged: read again, each of them stands for itself, and its group stays as it is.
pub fn written_types_stay()
    ensures { WrittenTypesStay }
{
    emitted_types_stand();
}

/// In what is written of a file functions that have bodies stand by falling size.
pub fn written_functions_fall()
    ensures { WrittenFunctionsFall }
{
    read_files_are_orderly();
}
