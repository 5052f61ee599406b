//! Laws: functions with nothing to do, whose contracts hold of all bodies.

ghost use Rattle.walrus_handler_types.specs.Giving.{GivenTypesGrow, ListsGive, TreesAreTyped};

pub use walrus_handlers::laws::{handlers_stand, trees_tell};

/// Where the handlers of a tree were given types, in the order of the text, each whose tag and block had parameters and results has the type
/// that each later table has for them: what was added for one serves the others of its parameters and results, and no other's type changes.
pub fn trees_are_typed()
    ensures { TreesAreTyped }
{}

/// A table grows by the types that sequences are given.
pub fn given_types_grow()
    ensures { GivenTypesGrow }
{}

/// What is given by a list of handlers by sequence is given as the tree tells them.
pub fn lists_give()
    ensures { ListsGive }
{}
