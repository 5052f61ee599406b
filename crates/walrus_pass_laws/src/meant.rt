//! Laws: references of a linked module, and what is kept of it, are those of the abstract module that it means.

ghost use Rattle.walrus_pass_laws.specs.Meant.{KeptIsMeant, PassesKeepWhatIsMeant, ReferencesAreMeant};

use crate::refs::bodies_name_what_is_told;
use walrus_tree::laws::trees_are_nested;
use walrus_walks::laws::{held_are_nested, walk_is_plain};
use walrus_walks::visit_laws::expressions_tell_their_operators;

/// In a linked module an item names just what it names in the module that is meant, a function the types of locals in place of these.
pub fn references_are_meant()
    ensures { ReferencesAreMeant }
{
    bodies_name_what_is_told();
    expressions_tell_their_operators();
    walk_is_plain();
    held_are_nested();
    trees_are_nested();
}

/// What is kept of a linked module is what is kept of the module that it means.
pub fn kept_is_meant()
    ensures { KeptIsMeant }
{
    bodies_name_what_is_told();
    expressions_tell_their_operators();
    walk_is_plain();
    held_are_nested();
    trees_are_nested();
}

/// Where `Used::new` and `gc::run` don't refuse a module, linked or not, they give and leave what is kept of the module that it means.
pub fn passes_keep_what_is_meant()
    ensures { PassesKeepWhatIsMeant }
{
    bodies_name_what_is_told();
    expressions_tell_their_operators();
    walk_is_plain();
    held_are_nested();
    trees_are_nested();
}
