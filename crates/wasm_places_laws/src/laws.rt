//! Laws: functions with nothing to do, whose contracts hold of all modules.

ghost use Rattle.wasm_places_laws.specs.Bodies.{BodyPairsAreTrue};
ghost use Rattle.wasm_places_laws.specs.Places.{PartPairsArePlaces, WrittenPairsArePlaces};
ghost use Rattle.wasm_places_laws.specs.Read.{CanonicalAreReadAtPlaces, DueAreReadAtPlaces};

/// The pairs of operators one behind another are true, rise, and are whole (Core Specification, binary format: expressions).
pub fn body_pairs_are_true()
    ensures { BodyPairsAreTrue }
{}

/// The pairs of a part's bodies are the pairs of places of a file that has them (Core Specification, binary format: code section).
pub fn part_pairs_are_places()
    ensures { PartPairsArePlaces }
{}

/// The bytes that are due to a module that is dense and meets the rules read as it, each operator at the place where it begins.
pub fn due_are_read_at_places()
    ensures { DueAreReadAtPlaces }
{
    wasm_module_spellings::laws::reads_is_spelled_and_ruled();
    wasm_canonical::laws::due_sections_fill();
    wasm_canonical::laws::own_functions_have_bodies();
    wasm_canonical::laws::due_sections_are_formed();
    wasm_canonical::laws::places_are_not_ruled();
}

/// The canonical bytes of a module that is dense, meets the rules and has spellings for its items read so.
pub fn canonical_are_read_at_places()
    ensures { CanonicalAreReadAtPlaces }
{
    due_are_read_at_places();
    wasm_canonical::laws::spelled_items_fit();
    wasm_canonical::laws::places_are_not_ruled();
}

/// The pairs of the bodies of a part that is written in canonical bytes are the pairs of places of what these read as.
pub fn written_pairs_are_places()
    ensures { WrittenPairsArePlaces }
{
    canonical_are_read_at_places();
    wasm_modules::laws::reads_once();
    part_pairs_are_places();
}
