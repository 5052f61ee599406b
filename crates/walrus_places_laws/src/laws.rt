//! Laws: functions with nothing to do, whose contracts hold of all that is written.

ghost use Rattle.walrus_places_laws.specs.Bodies.{BodyPlacesArePairs};
ghost use Rattle.walrus_places_laws.specs.Code.{CodePlacesArePairs};
ghost use Rattle.walrus_places_laws.specs.Order.{FactsStandInOrder};
ghost use Rattle.walrus_places_laws.specs.Part.{LocationsArePairs};
ghost use Rattle.walrus_places_laws.specs.Places.{LocationsArePlaces};

/// The pairs that the writing of a body leaves are of each operator that has a location that location, and the place at which the operator begins in the shortest
/// spelling of the body (Core Specification, binary format: code section).
pub fn body_places_are_pairs()
    ensures { BodyPlacesArePairs }
{
    walrus_local_numbers::laws::numbers_follow();
    walrus_body_laws::writing::text_is_operators();
    walrus_body_laws::emission::bodies_are_meant();
    walrus_body_laws::emission::locals_are_meant();
}

/// Those of a code section are so, behind the count of its bodies and the size of each.
pub fn code_places_are_pairs()
    ensures { CodePlacesArePairs }
{
    body_places_are_pairs();
    walrus_code_laws::laws::bodies_are_spelled();
    walrus_local_numbers::laws::numbers_follow();
    walrus_body_laws::emission::locals_are_meant();
}

/// The functions of facts in an order are those that are written in it.
pub fn facts_stand_in_order()
    ensures { FactsStandInOrder }
{}

/// Those of a module are those of the plan's part, in which the locals of each body are numbered.
pub fn locations_are_pairs()
    ensures { LocationsArePairs }
{
    code_places_are_pairs();
    walrus_due_laws::laws::own_items_stay();
}

/// They are the pairs of places of the file that was rewritten: true, rising, whole.
pub fn locations_are_places()
    ensures { LocationsArePlaces }
{
    locations_are_pairs();
    wasm_places_laws::laws::written_pairs_are_places();
}
