//! Laws: functions with nothing to do, whose contracts hold of all bodies.

ghost use Rattle.walrus_module_bodies.specs.Laws.{BodiesHoldTheirs, StepsReadCodes};

use walrus_body_trees::laws::bodies_hold_their_operators;
use walrus_function_types::laws::{entry_types_grow, found_types_stay, tables_grow_on};

/// Bodies that were read into the module of a file are those of the file, as the grammar reads them, and each function names its parameters
/// and the locals that its body declares.
pub fn steps_read_codes()
    ensures { StepsReadCodes }
{
    entry_types_grow();
    found_types_stay();
    tables_grow_on();
}

/// A body that was read into the module of a file has as many operators, but for those that only mark where sequences end, as its sequences
/// hold instructions: none is in a sequence that isn't entered.
pub fn bodies_hold_theirs()
    ensures { BodiesHoldTheirs }
{
    entry_types_grow();
    found_types_stay();
    tables_grow_on();
    bodies_hold_their_operators();
}
