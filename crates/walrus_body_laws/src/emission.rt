//! Laws of what is written for a module, beside what the module means.

ghost use Rattle.walrus_body_laws.specs.EmissionLaws.{BodiesAreMeant, LocalsAreMeant, ReadBodiesAreWritten};
ghost use Rattle.walrus_body_laws.specs.Runs.{WrittenBodiesRunRenamed};

/// The operators that are written for a body are those that it means, renamed as the map of ids renames, each with its location's place.
pub fn bodies_are_meant()
    ensures { BodiesAreMeant }
{
    crate::writing::texts_are_renamed();
}

/// The locals that are declared for a body, of those that its text names, are those that it means.
pub fn locals_are_meant()
    ensures { LocalsAreMeant }
{
    crate::writing::names_are_operators();
    crate::writing::texts_are_renamed();
}

/// What is written for a body that was read is the normal form of what was read: its operators, each index renamed to the number that is
/// written for the id that it named, at the places that they carry.
pub fn read_bodies_are_written()
    ensures { ReadBodiesAreWritten }
{
    bodies_are_meant();
    walrus_body_trees::laws::bodies_mean_their_normal_form();
    wasm_operators::laws::renamings_compose();
}

/// What is written for a body that was read executes the same operators as what was read, renamed so, for all outcomes and bounds, and
/// ends the same (Core Specification, execution).
pub fn written_bodies_run_renamed()
    ensures { WrittenBodiesRunRenamed }
{
    read_bodies_are_written();
    wasm_run_laws::laws::bodies_run_renamed();
}
