//! Laws: functions with nothing to do but to call others, whose contracts hold of all modules.

ghost use Rattle.walrus_rewritten_laws.specs.Bytes.{PlansTellSegments, WrittenBytesAreCanonical};
ghost use Rattle.walrus_rewritten_laws.specs.Files.{KeptFilesAreRewritten};
ghost use Rattle.walrus_rewritten_laws.specs.Planned.{KeptModulesArePlanned, WrittenModulesArePlanned};
ghost use Rattle.walrus_rewritten_laws.specs.Rewritten.{MadeAreRewritten, SpelledPartsAreRewritten};

/// A linked module that was written, and whose items had their own ids, was written by the numbers of its plan: they serve for all standard sections (Core
/// Specification, indices).
pub fn written_modules_are_planned<B>()
    ensures { WrittenModulesArePlanned B }
{
    walrus_plan_laws::laws::written_modules_are_ready::<B>();
    walrus_plan_laws::laws::emissions_have_plans::<B>();
    walrus_code_laws::laws::emissions_serve_code::<B>();
    walrus_places_laws::laws::facts_stand_in_order();
}

/// So was what is kept of a module that was read.
pub fn kept_modules_are_planned<B>()
    ensures { KeptModulesArePlanned B }
{
    written_modules_are_planned::<B>();
    walrus_parse_laws::linked::modules_that_are_read_are_linked::<B>();
    walrus_pass_laws::passes::gc_keeps_linked();
    walrus_own_ids_laws::laws::read_items_have_own_ids::<B>();
    walrus_own_ids_laws::laws::kept_items_have_own_ids();
}

/// Whether the bodies of the part name data segments is told by what is known of those of the module (Core Specification, binary format: data count section).
pub fn plans_tell_segments<B>()
    ensures { PlansTellSegments B }
{}

/// The bytes that were written are the canonical bytes of the part by its plan, with the custom sections that are due (Core Specification, binary format: modules).
pub fn written_bytes_are_canonical<B>()
    ensures { WrittenBytesAreCanonical B }
{
    walrus_due_laws::laws::types_are_spelled();
    walrus_plan_laws::laws::segments_name_no_locals::<B>();
    plans_tell_segments::<B>();
    walrus_code_laws::laws::parts_are_canonical();
}

/// Canonical bytes of the part that is kept of a file, with the custom sections that are written, are the file rewritten where the part has spellings.
pub fn spelled_parts_are_rewritten()
    ensures { SpelledPartsAreRewritten }
{
    wasm_canonical::laws::spelled_are_canonical();
}

/// What was written of what is kept of a module that was read is its file rewritten, with the pairs of places where they are asked for.
pub fn made_are_rewritten<B>()
    ensures { MadeAreRewritten B }
{
    kept_modules_are_planned::<B>();
    written_bytes_are_canonical::<B>();
    walrus_places_laws::laws::locations_are_places();
    spelled_parts_are_rewritten();
}

/// The part that was written stands for the file, in order, and has spellings: so it is the file rewritten.
pub fn kept_files_are_rewritten<B>()
    ensures { KeptFilesAreRewritten B }
{
    walrus_kept_laws::laws::seen_as_is_meant::<B>();
    kept_modules_are_planned::<B>();
    written_bytes_are_canonical::<B>();
    walrus_stands_laws::laws::emissions_stand_for_files::<B>();
    wasm_spelled_parts_laws::laws::due_parts_are_written();
    walrus_counted_laws::laws::written_parts_are_counted::<B>();
    walrus_code_laws::laws::part_bodies_are_short();
    walrus_code_laws::laws::code_is_apart();
    made_are_rewritten::<B>();
}
