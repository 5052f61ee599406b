//! Laws: functions with nothing to do, whose contracts hold of all modules and bodies.

ghost use Rattle.walrus_module_env.specs.Filled.{ReadTypesAreFiled};
ghost use Rattle.walrus_module_env.specs.First.{FirstTypesStay};
ghost use Rattle.walrus_module_env.specs.Handled.{HandledBodiesStand};
ghost use Rattle.walrus_module_env.specs.Parsed.{FilesAreSeen, PicksAreSeen, PicksAreNamed, BlocksAreNamed};

use walrus_functions_into::types_into::laws::new_types_stand;
use walrus_handler_types::laws::{handlers_stand, trees_tell};

/// A body sees the file whose sections were read into its module.
pub fn files_are_seen()
    ensures { FilesAreSeen }
{}

/// The grammar's picks for written block types have the types that the module picks.
pub fn picks_are_seen()
    ensures { PicksAreSeen }
{}

/// What the module's table finds among the file's own types is the type that the grammar picks, by its id.
pub fn picks_are_named()
    ensures { PicksAreNamed }
{}

/// So the type of a written block is the grammar's pick for it, by its id.
pub fn blocks_are_named()
    ensures { BlocksAreNamed }
{}

/// Types that were read into a new table are those of the file there, whatever types of other kinds were added behind them.
pub fn read_types_are_filed()
    ensures { ReadTypesAreFiled }
{
    new_types_stand();
}

/// A body that was read beside some type for each handler, and whose handlers were given theirs, stands so beside each later table of the
/// module's types.
pub fn handled_bodies_stand()
    ensures { HandledBodiesStand }
{
    handlers_stand();
    trees_tell();
}

/// The types of a file that stand first in a table stay so where it grows.
pub fn first_types_stay()
    ensures { FirstTypesStay }
{}
