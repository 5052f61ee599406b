//! Laws: functions with nothing to do but to call others, whose contracts hold of all modules.

ghost use Rattle.walrus_counted_laws.specs.Counted.{WrittenPartsAreCounted};

use walrus_stands_laws::laws::plans_list_living;

/// No list of the part that was written is longer than a reader takes (Core Specification, implementation limitations: syntactic limits).
pub fn written_parts_are_counted<B>()
    ensures { WrittenPartsAreCounted B }
{
    plans_list_living::<B>();
}
