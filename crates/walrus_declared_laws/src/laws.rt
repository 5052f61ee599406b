//! Laws: functions with nothing to do but to call others, whose contracts hold of all modules.

ghost use Rattle.walrus_declared_laws.specs.Added.{LastSegmentsAreAdded};
ghost use Rattle.walrus_declared_laws.specs.Agreed.{AgreeingModulesAreOrdered};
ghost use Rattle.walrus_declared_laws.specs.Declared.{UndeclaredAreDeclared};
ghost use Rattle.walrus_declared_laws.specs.Emitted.{EmissionsDeclare};
ghost use Rattle.walrus_declared_laws.specs.Retyped.{RetypedPartsAreSame};
ghost use Rattle.walrus_declared_laws.specs.Standing.{EmittedPartsStand};
ghost use Rattle.walrus_declared_laws.specs.Wanted.{WantedAreThere, WantsAreTold};

use walrus_kept_types_laws::laws::{file_types_have_their_indices, read_types_are_written};
use wasm_normal_modules::laws::normal_forms_of_read_modules_are_ruled;
use wasm_operators::laws::renamings_compose;
use wasm_part::laws::parts_agree;

/// A module with a segment that declares functions, which a plan lists last, has by it the part of the module without it to which the plan adds it.
pub fn last_segments_are_added()
    ensures { LastSegmentsAreAdded }
{}

/// Modules that agree on what a plan lists have one order by it, and the same functions to be declared.
pub fn agreeing_modules_are_ordered()
    ensures { AgreeingModulesAreOrdered }
{}

/// Plans that give the types that a file's items name the same numbers have one part of the file's merged module.
pub fn retyped_parts_are_same()
    ensures { RetypedPartsAreSame }
{
    renamings_compose();
}

/// What is written of a module with the segment that was added for it is the part of the module without it, by a plan that adds the segment, in the same order.
pub fn emissions_declare()
    ensures { EmissionsDeclare }
{}

/// By a plan that lists all that is there, the functions that are wanted are those to which bodies and globals refer, and those that are held those of exports and
/// segments.
pub fn wants_are_told()
    ensures { WantsAreTold }
{}

/// The functions for which a module is given a segment, by what is known of its bodies, are those that bodies and globals refer to and that nothing holds.
pub fn undeclared_are_declared<B>()
    ensures { UndeclaredAreDeclared B }
{
    wants_are_told();
}

/// The functions to which bodies and globals refer, of a module that meets the rules, are there.
pub fn wanted_are_there()
    ensures { WantedAreThere }
{}

/// What emission writes of a module that was read and of which what isn't kept was deleted: the part of the file's merged module, by a plan of that module, with its
/// types as they are emitted, in order, with the functions that have to be declared.
pub fn emitted_parts_stand<B>()
    ensures { EmittedPartsStand B }
{
    read_types_are_written::<B>();
    file_types_have_their_indices::<B>();
    emissions_declare();
    undeclared_are_declared::<B>();
    agreeing_modules_are_ordered();
    parts_agree();
    retyped_parts_are_same();
    wanted_are_there();
    normal_forms_of_read_modules_are_ruled();
}
