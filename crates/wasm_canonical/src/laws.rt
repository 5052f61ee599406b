//! Laws: functions with nothing to do but to call others, whose contracts hold of all modules.

ghost use Rattle.wasm_canonical.specs.Bodies.{DueBodiesAreSpelled};
ghost use Rattle.wasm_canonical.specs.Canonical.{CanonicalOnce};
ghost use Rattle.wasm_canonical.specs.CanonicalReads.{CanonicalAreCanonical, SpelledAreCanonical};
ghost use Rattle.wasm_canonical.specs.Dense.{DueSectionsFill};
ghost use Rattle.wasm_canonical.specs.Entries.{DueContentsFit};
ghost use Rattle.wasm_canonical.specs.EntriesFormed.{DueEntriesAreFormed};
ghost use Rattle.wasm_canonical.specs.Fits.{RuledBodiesFit};
ghost use Rattle.wasm_canonical.specs.Formed.{DueSectionsAreFormed};
ghost use Rattle.wasm_canonical.specs.Items.{SpelledItemsFit};
ghost use Rattle.wasm_canonical.specs.Ordered.{DueSectionsAreOrdered};
ghost use Rattle.wasm_canonical.specs.Places.{PlacesAreNotRuled};
ghost use Rattle.wasm_canonical.specs.Read.{DueModulesAreRead};
ghost use Rattle.wasm_canonical.specs.Sizes.{ShortFilesFit};
ghost use Rattle.wasm_canonical.specs.Spelled.{DueModulesAreSpelled, OwnFunctionsHaveBodies};

use wasm_module_bytes::laws::entries_tell;
use wasm_module_spellings::laws::reads_is_spelled_and_ruled;
use wasm_modules::laws::reads_once;
use wasm_section_bytes::laws::flags_tell;

/// The sections that are due to a module leave it, with its custom sections, but for its bodies.
pub fn due_sections_fill()
    ensures { DueSectionsFill }
{
    entries_tell();
    flags_tell();
}

/// The entries that are due to a module that meets the rules meet those of their sections.
pub fn due_entries_are_formed()
    ensures { DueEntriesAreFormed }
{
    entries_tell();
}

/// The sections that are due to a module stand in the order of a file's sections.
pub fn due_sections_are_ordered()
    ensures { DueSectionsAreOrdered }
{}

/// The bodies that are due to a module that meets the rules are spelled.
pub fn due_bodies_are_spelled()
    ensures { DueBodiesAreSpelled }
{}

/// The sections that are due to a module that meets the rules are formed.
pub fn due_sections_are_formed()
    ensures { DueSectionsAreFormed }
{
    due_sections_fill();
    due_entries_are_formed();
    due_sections_are_ordered();
}

/// A dense module has a body for each function that isn't imported.
pub fn own_functions_have_bodies()
    ensures { OwnFunctionsHaveBodies }
{}

/// The bytes that are due to a module that is dense and meets the rules spell it.
pub fn due_modules_are_spelled()
    ensures { DueModulesAreSpelled }
{
    due_sections_fill();
    own_functions_have_bodies();
    due_bodies_are_spelled();
    due_sections_are_formed();
}

/// Rules don't look at places.
pub fn places_are_not_ruled()
    ensures { PlacesAreNotRuled }
{}

/// The bytes that are due to a module that is dense and meets the rules read as it.
pub fn due_modules_are_read()
    ensures { DueModulesAreRead }
{
    reads_is_spelled_and_ruled();
    due_modules_are_spelled();
    places_are_not_ruled();
}

/// A body that meets the rules is within the limits of the format where the types of its locals and its operators have spellings.
pub fn ruled_bodies_fit()
    ensures { RuledBodiesFit }
{}

/// A short file is within the limits of the format where the contents of its sections are.
pub fn short_files_fit()
    ensures { ShortFilesFit }
{}

/// The contents of the sections that are due to a module are within the limits of the format where its items are.
pub fn due_contents_fit()
    ensures { DueContentsFit }
{}

/// A module whose items have spellings is within the limits of the format, where its bodies and its bytes are not too long.
pub fn spelled_items_fit()
    ensures { SpelledItemsFit }
{
    ruled_bodies_fit();
    short_files_fit();
    due_contents_fit();
}

/// The canonical bytes of a module that is dense and meets the rules read as it, places aside, and are canonical.
pub fn canonical_are_canonical()
    ensures { CanonicalAreCanonical }
{
    due_modules_are_read();
    places_are_not_ruled();
}

/// The canonical bytes of a module that is dense, meets the rules and has spellings for its items are canonical, and read as it, places aside.
pub fn spelled_are_canonical()
    ensures { SpelledAreCanonical }
{
    canonical_are_canonical();
    spelled_items_fit();
    places_are_not_ruled();
}

/// Canonical bytes that read as one module, places aside, are equal.
pub fn canonical_once()
    ensures { CanonicalOnce }
{
    reads_once();
}
