//! Laws: functions with nothing to do, whose contracts hold of all modules that files have filled.

ghost use Rattle.walrus_items_into.specs.Laws.{FilledFunctionsStand, FilledModulesAreFiled, FilledModulesAreNumbered, NamedLocalsCount};

use walrus_module_bodies::functions_into::laws::{read_bodies_are_paired, read_functions_stand};
use walrus_module_bodies::module_env::laws::read_types_are_filed;
use walrus_module_bodies::types_into::laws::{new_types_stand, types_name_below};

/// Bodies see the file whose sections filled their module.
pub fn filled_modules_are_filed<B>()
    ensures { FilledModulesAreFiled B }
{
    types_name_below();
    read_types_are_filed();
}

/// Each number of the file's module, bodies included, names something.
pub fn filled_modules_are_numbered<B>()
    ensures { FilledModulesAreNumbered B }
{
    types_name_below();
    new_types_stand();
}

/// Each function has a live function type, and those that aren't imported get the file's bodies in turn.
pub fn filled_functions_stand<B>()
    ensures { FilledFunctionsStand B }
{
    types_name_below();
    new_types_stand();
    read_functions_stand();
    read_bodies_are_paired();
}

/// Functions of which bodies and parameters name the locals name as many as they have in the file's module.
pub fn named_locals_count<B>()
    ensures { NamedLocalsCount B }
{
    read_bodies_are_paired();
}
