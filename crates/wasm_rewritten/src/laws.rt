//! Laws: functions with nothing to do but to call others, whose contracts hold of all modules.

ghost use Rattle.wasm_rewritten.specs.Dense.{PartsAreDense};
ghost use Rattle.wasm_rewritten.specs.Exports.{ExportsStay};
ghost use Rattle.wasm_rewritten.specs.Orderly.{ReadFilesAreOrderly};
ghost use Rattle.wasm_rewritten.specs.Rewritten.{RewritingAgainDropsNothing, WrittenIsReached};
ghost use Rattle.wasm_rewritten.specs.Ruled.{FilesNameTheirLocals, ReadFilesArePicked, WrittenPartsAreRuled};
ghost use Rattle.wasm_rewritten.specs.Runs.{CallsAreKept, CorrespondingRuns, EntriesAreKept, KeptIsDecided, PicksKeepThrough, ReadFilesAreAsked, RewrittenRunsCorrespond, WrittenRunsTheSame, WrittenStandsNormal};

use walrus_forms::laws::same_kind_is_equality;
use wasm_import_links::laws::{read_modules_are_full, read_modules_link};
use wasm_merged_modules::laws::{merged_files_are_ruled, new_kinds_stand_behind, types_are_merged};
use wasm_modules::laws::reads_once;
use wasm_normal_form::laws::{normal_forms_are_normal, trees_are_one};
use wasm_normal_modules::laws::{
    normal_forms_of_read_modules_are_ruled, numbered_operators_are_normal,
};
use wasm_operators::laws::names_are_renamed;
use wasm_part::laws::{
    blocks_open, emitted_types_stand, handlers_are_missing, kept_parts_are_ruled,
};
use wasm_ruled_normal::laws::normal_operators_are_ruled;
use wasm_run_names::laws::block_types_keep_parameters_and_results;
use wasm_runs::laws::each_run_has_one_trace;

/// The picks of the grammar keep parameters and results under a renaming that sees types by what they stand for.
pub fn picks_keep_through()
    ensures { PicksKeepThrough }
{
    same_kind_is_equality();
}

/// Each kept function of a file stands in what is written, in normal form and renamed, and what that names is kept.
pub fn written_stands_normal()
    ensures { WrittenStandsNormal }
{
    picks_keep_through();
    numbered_operators_are_normal();
    normal_operators_are_ruled();
    block_types_keep_parameters_and_results();
    types_are_merged();
    emitted_types_stand();
}

/// Exported functions and the start function are kept; being kept is decided.
pub fn entries_are_kept()
    ensures kept { EntriesAreKept }
    ensures decided { KeptIsDecided }
{}

/// Each run of a kept function of the file, with outcomes that enter kept functions, is a run of the function that stands for it, renamed; and of an exported

/// or start function the traces are the same, renamed.
pub fn written_runs_the_same()
    ensures runs { WrittenRunsTheSame }
    ensures correspond { CorrespondingRuns }
{
    written_stands_normal();
    entries_are_kept();
    trees_are_one();
    normal_forms_are_normal();
    each_run_has_one_trace();
}

/// Each operator that a run of a kept function executes stands in a kept function and names kept functions: so does each direct call.
pub fn calls_are_kept()
    ensures { CallsAreKept }
{
    written_stands_normal();
    trees_are_one();
    normal_forms_are_normal();
}

/// Of bytes and their rewriting: runs of each exported or start function correspond.
pub fn rewritten_runs_correspond()
    ensures asked { ReadFilesAreAsked }
    ensures runs { RewrittenRunsCorrespond }
{
    written_runs_the_same();
    handlers_are_missing();
    new_kinds_stand_behind();
    normal_forms_of_read_modules_are_ruled();
}

/// The part of a module stands as a module does in a file: each slot is filled, and what imports bring comes first.
pub fn parts_are_dense()
    ensures { PartsAreDense }
{}

/// In a file's module, its bodies in normal form and its types merged, imports and items name one another, and imported globals come first.
pub fn read_files_are_orderly()
    ensures { ReadFilesAreOrderly }
{
    read_modules_link();
}

/// The types of the locals that the normal form of a file's body declares are among what its function names.
pub fn files_name_their_locals()
    ensures { FilesNameTheirLocals }
{
    types_are_merged();
}

/// The normal form of a file that is read meets the rules with its types merged, and each block type in it is its own pick.
pub fn read_files_are_picked()
    ensures { ReadFilesArePicked }
{
    blocks_open();
    handlers_are_missing();
    merged_files_are_ruled();
}

/// The part of a file that has just what is kept meets the rules, renumbered.
pub fn written_parts_are_ruled()
    ensures { WrittenPartsAreRuled }
{
    read_files_are_picked();
    files_name_their_locals();
    read_files_are_orderly();
    handlers_are_missing();
    normal_forms_of_read_modules_are_ruled();
    new_kinds_stand_behind();
    kept_parts_are_ruled();
}

/// In what is written of a file exports keep their names, kinds and order, and the imports that are kept theirs.
pub fn exports_stay()
    ensures { ExportsStay }
{
    read_modules_are_full();
}

/// Each item of what is written of a file is reached there from a root by a chain of references, but for types and memories: of it no proper part holds the
/// roots and is closed.
pub fn written_is_reached()
    ensures { WrittenIsReached }
{
    names_are_renamed();
}

/// What was rewritten and is rewritten again with the same choices keeps each of its functions, tables, memories, globals, tags, data and element segments.
pub fn rewriting_again_drops_nothing()
    ensures { RewritingAgainDropsNothing }
{
    written_is_reached();
    numbered_operators_are_normal();
    trees_are_one();
    normal_forms_are_normal();
    names_are_renamed();
    reads_once();
}
