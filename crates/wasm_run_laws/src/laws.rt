//! Laws: functions with nothing to do but to call the laws on normal forms, whose contracts hold of all runs.

ghost use Rattle.wasm_run_laws.specs.Laws.{BodyRunsRenamed, NormalBodiesStand, NormalBodyRunsTheSame, NormalModuleRunsTheSame, NormalRunsRenamed, NormalRunsTheSame, RenamedRunsCorrespond, RunsCorrespond};

use wasm_normal_form::laws::{normal_forms_are_normal, trees_are_one};

/// A body and its normal form execute the same operators and end the same, for all outcomes and bounds; so does its normal form with the
/// locals' new numbers, which its trace then has.
pub fn bodies_run_as_their_normal_forms()
    ensures same { NormalRunsTheSame }
    ensures renumbered { NormalBodyRunsTheSame }
{
    trees_are_one();
    normal_forms_are_normal();
}

/// A renamed body executes the same operators, renamed, and ends the same; so does its normal form, renamed.
pub fn bodies_run_renamed()
    ensures renamed { BodyRunsRenamed }
    ensures normal { NormalRunsRenamed }
{
    trees_are_one();
    normal_forms_are_normal();
}

/// A module and the one of its normal forms execute the same operators and end the same, from each function.
pub fn modules_run_as_their_normal_forms()
    ensures { NormalModuleRunsTheSame }
{
    trees_are_one();
    normal_forms_are_normal();
}

/// Where each kept function of a module stands in another, renamed, or in normal form and renamed, corresponding runs execute the same
/// operators, renamed, and end the same.
pub fn runs_correspond()
    ensures normal { RunsCorrespond }
    ensures renamed { RenamedRunsCorrespond }
{
    trees_are_one();
    normal_forms_are_normal();
}

/// A body in normal form and renamed is its normal form with the locals' new numbers, and then its items renamed.
pub fn normal_bodies_stand_renamed()
    ensures { NormalBodiesStand }
{}
