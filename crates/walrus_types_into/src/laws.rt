//! Laws: functions with nothing to do, whose contracts hold of all that is read.

ghost use Rattle.walrus_types_into.specs.Into.{NewTypesStand, TypesNameBelow};

use walrus_types::laws::parsing_carries_same;

/// Types that were read name types below the end of their group.
pub fn types_name_below()
    ensures { TypesNameBelow }
{}

/// Groups that are put into a new table stand there: each index has the id of a live type of the kind that was read.
pub fn new_types_stand()
    ensures { NewTypesStand }
{
    parsing_carries_same();
}
