//! Laws: functions with nothing to do, whose contracts hold of all functions.

ghost use Rattle.walrus_locations.specs.Laws.{AnswersReplace, LocationsStay};

use walrus_walks::instr::InstrLocId;

/// A callback that answers for each number what one function of numbers gives leaves each location replaced by that, and nothing else changed.
pub fn answers_replace<F: FnMut(u32) -> InstrLocId>()
    ensures { AnswersReplace F.step }
{}

/// A callback that answers the location of each number leaves all functions as they were.
pub fn locations_stay<F: FnMut(u32) -> InstrLocId>()
    ensures { LocationsStay F.step }
{}
