//! Laws: functions with nothing to do but to call others, whose contracts hold of all modules.

ghost use Rattle.walrus_kept_laws.specs.Kept.{PlansHaveKept, ReadPlansHaveKept};
ghost use Rattle.walrus_kept_laws.specs.Left.{MeansLeft};
ghost use Rattle.walrus_kept_laws.specs.Seen.{SeenAsMeant};
ghost use Rattle.walrus_kept_laws.specs.Stay.{NumberedLeft, PartsStay};

use walrus_forms::laws::same_kind_is_equality;
use walrus_kept_types_laws::laws::{handlers_are_lacking, read_types_are_read};
use walrus_pairing::laws::operators_come_back;
use walrus_parse_gc_laws::ruled::meanings_of_read_modules_are_merged;
use walrus_pass_laws::meant::{kept_is_meant, passes_keep_what_is_meant};
use walrus_pass_laws::passes::linked_are_served;
use walrus_tree::laws::{text_is_plain, trees_are_nested};
use walrus_types::laws::parsing_carries_same;
use wasm_merged_modules::laws::new_kinds_stand_behind;
use wasm_normal_form::laws::normal_forms_are_normal;
use wasm_normal_modules::laws::normal_forms_of_read_modules_are_ruled;
use wasm_operators::laws::{names_are_renamed, operators_in_range_are_spelled};
use wasm_part::laws::{handlers_are_missing, parts_agree};

/// The kept part of a module means what the module means, without what isn't kept.
pub fn means_left()
    ensures { MeansLeft }
{}

/// So it is where locals are numbered by their places, and a plan that lists nothing but what is left writes of both the same part.
pub fn parts_stay()
    ensures left { NumberedLeft }
    ensures parts { PartsStay }
{
    parts_agree();
}

/// Where in a module that was read the same is kept by ids as by places, a plan that lists just what `gc::run` left of it has just what is kept of the file's
/// module.
pub fn plans_have_kept<B>()
    ensures { PlansHaveKept B }
{
    passes_keep_what_is_meant();
    meanings_of_read_modules_are_merged::<B>();
    handlers_are_lacking();
}

/// In a module that was read references look at the same by ids as they do by places in the file.
pub fn seen_as_is_meant<B>()
    ensures { SeenAsMeant B }
{
    parsing_carries_same();
    new_kinds_stand_behind();
    handlers_are_missing();
    same_kind_is_equality();
    names_are_renamed();
    operators_come_back();
    operators_in_range_are_spelled();
    trees_are_nested();
    text_is_plain();
    normal_forms_are_normal();
    normal_forms_of_read_modules_are_ruled();
    kept_is_meant();
    linked_are_served();
    read_types_are_read::<B>();
    meanings_of_read_modules_are_merged::<B>();
    handlers_are_lacking();
}

/// So a plan that lists just what `gc::run` left of a module that was read has just what is kept of the file's module.
pub fn read_plans_have_kept<B>()
    ensures { ReadPlansHaveKept B }
{
    plans_have_kept::<B>();
    seen_as_is_meant::<B>();
}
