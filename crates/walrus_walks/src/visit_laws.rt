//! Laws of what constant expressions and types tell a visitor. Each function is its contract alone.
ghost use Rattle.walrus_walks.specs.ConstEvents.{ExprsTellOps, TellsRenamed, TellsAllNames, RefsTellNames, ValuesTellNames};

/// A constant expression tells what its operators tell, in their order.
pub fn expressions_tell_their_operators()
    ensures { ExprsTellOps }
{}

/// An operator whose indices are sent through maps tells what it told, with these indices sent through the
/// maps; and where maps agree on what it tells, they make the same of it, so that it tells each index in it.
pub fn operators_tell_their_names()
    ensures renamed { TellsRenamed }
    ensures all { TellsAllNames }
{}

/// Reference and value types tell the type that they name.
pub fn types_tell_their_names()
    ensures references { RefsTellNames }
    ensures values { ValuesTellNames }
{}
