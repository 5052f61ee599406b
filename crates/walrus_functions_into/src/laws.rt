//! Laws: functions with nothing to do, whose contracts hold of all that is read.

ghost use Rattle.walrus_functions_into.specs.Laws.{ReadBodiesArePaired, ReadFunctionsStand};

/// Functions that were read may be added: each names a type, and has the id of a live function type (Core Specification, binary format:
/// function section).
pub fn read_functions_stand()
    ensures { ReadFunctionsStand }
{}

/// In a collection that began empty each function of a file that isn't imported gets a body, in their order (Core Specification, binary
/// format: modules).
pub fn read_bodies_are_paired()
    ensures { ReadBodiesArePaired }
{}
