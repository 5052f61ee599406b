//! Laws: functions with nothing to do, whose contracts hold of all that is due.

ghost use Rattle.walrus_code_laws.specs.Bodies.{BodiesAreSpelled};
ghost use Rattle.walrus_code_laws.specs.Code.{CodeIsSpelled};
ghost use Rattle.walrus_code_laws.specs.Emissions.{EmissionsServeCode, LinkedArgumentsAreOnce};
ghost use Rattle.walrus_code_laws.specs.Short.{PartBodiesAreShort};
ghost use Rattle.walrus_code_laws.specs.Parts.{CodeIsApart, PartCodeIsSpelled, PartsAreCanonical, PartsAreWritten};

/// A body that can be written is the shortest spelling of the body that its function means, renamed by the numbers that items and locals have.
pub fn bodies_are_spelled()
    ensures { BodiesAreSpelled }
{
    walrus_local_numbers::laws::numbers_follow();
    walrus_body_laws::writing::text_is_operators();
    walrus_body_laws::emission::bodies_are_meant();
    walrus_body_laws::emission::locals_are_meant();
}

/// A code section that can be written is the shortest spelling of its bodies, renamed.
pub fn code_is_spelled()
    ensures { CodeIsSpelled }
{
    walrus_local_numbers::laws::numbers_follow();
    walrus_body_laws::emission::locals_are_meant();
    bodies_are_spelled();
}

/// How the locals of bodies are numbered doesn't show around code, and places don't show in it.
pub fn code_is_apart()
    ensures { CodeIsApart }
{}

/// A code section that can be written by a plan's numbers is that of the plan's part, where locals are numbered by their places.
pub fn part_code_is_spelled()
    ensures { PartCodeIsSpelled }
{
    code_is_spelled();
}

/// Standard sections that can be written by a plan's numbers are those of the plan's part.
pub fn parts_are_written()
    ensures { PartsAreWritten }
{
    code_is_spelled();
    walrus_due_laws::laws::parts_are_spelled();
    walrus_due_laws::laws::standard_is_around();
}

/// Between the part's custom sections they are its canonical bytes.
pub fn parts_are_canonical()
    ensures { PartsAreCanonical }
{
    code_is_spelled();
    walrus_due_laws::laws::files_are_spelled();
    walrus_due_laws::laws::parts_are_spelled();
    walrus_due_laws::laws::standard_is_around();
}

/// By the numbers that emission gives, code is written by a plan of these numbers.
pub fn emissions_serve_code<B>()
    ensures { EmissionsServeCode B }
{}

/// No function of a linked module has an argument twice.
pub fn linked_arguments_are_once()
    ensures { LinkedArgumentsAreOnce }
{}

/// The bodies of a code section that can be written are no longer than a reader takes.
pub fn part_bodies_are_short()
    ensures { PartBodiesAreShort }
{
    bodies_are_spelled();
    walrus_local_numbers::laws::numbers_follow();
    walrus_body_laws::emission::locals_are_meant();
}
