//! Laws: functions with nothing to do but to call others, whose contracts hold of all modules.

ghost use Rattle.walrus_stands_laws.specs.Declared.{DeclaredAreKept};
ghost use Rattle.walrus_stands_laws.specs.Listed.{DeclaringPlansListLiving, PlansListLiving};
ghost use Rattle.walrus_stands_laws.specs.Placed.{KeptPlansArePlaced};
ghost use Rattle.walrus_stands_laws.specs.Stands.{EmissionsStandForFiles, NumberedIsOne};
ghost use Rattle.walrus_stands_laws.specs.Types.{LeftTypesAreListed};

use walrus_declared_laws::laws::emitted_parts_stand;
use walrus_kept_laws::laws::{parts_stay, plans_have_kept};
use walrus_kept_types_laws::laws::handlers_are_lacking;
use walrus_parse_gc_laws::ruled::meanings_of_read_modules_are_merged;
use wasm_rewritten::laws::{read_files_are_orderly, read_files_are_picked};

/// A plan that has just what is kept of a file's module, in order, lists each item at its new number, and globals by number (Core Specification, indices).
pub fn kept_plans_are_placed()
    ensures { KeptPlansArePlaced }
{
    read_files_are_orderly();
}

/// The functions that a plan declares are kept, as a body or a global that is kept refers to each (Core Specification, valid modules: references of `ref.func`).
pub fn declared_are_kept()
    ensures { DeclaredAreKept }
{}

/// Of a module that was read and of which some types were deleted, just those that are left are listed: by their places among those that were read.
pub fn left_types_are_listed()
    ensures { LeftTypesAreListed }
{}

/// The plan of emission lists nothing but what lives in the module.
pub fn plans_list_living<B>()
    ensures { PlansListLiving B }
{}

/// So does the plan of the module that had no segment that declares functions, to which the plan adds one.
pub fn declaring_plans_list_living()
    ensures { DeclaringPlansListLiving }
{}

/// The ways in which the locals of bodies are numbered by their places are one.
pub fn numbered_is_one()
    ensures { NumberedIsOne }
{}

/// What emission writes of a module that was read, and of which what isn't kept was dropped, stands for its file: it is the part of the file's merged module that has
/// just what is kept, in order, with the functions declared that have to be.
pub fn emissions_stand_for_files<B>()
    ensures { EmissionsStandForFiles B }
{
    emitted_parts_stand::<B>();
    parts_stay();
    plans_have_kept::<B>();
    handlers_are_lacking();
    meanings_of_read_modules_are_merged::<B>();
    read_files_are_picked();
    kept_plans_are_placed();
    declared_are_kept();
    left_types_are_listed();
    plans_list_living::<B>();
    declaring_plans_list_living();
}
