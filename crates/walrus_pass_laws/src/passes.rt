//! Laws of passes over modules.

ghost use Rattle.walrus_pass_laws.specs.LinkedKept.{GcKeepsLinked};
ghost use Rattle.walrus_pass_laws.specs.Served.{LinkedAreServed};
ghost use Rattle.walrus_pass_laws.specs.Twice.{GcTwice};

/// A second `gc::run` deletes nothing, and is refused for want of memory alone.
pub fn second_gc_deletes_nothing()
    ensures { GcTwice }
{}

/// What `gc::run` leaves of a linked module is linked.
pub fn gc_keeps_linked()
    ensures { GcKeepsLinked }
{}

/// On a linked module `gc::run` and `Used::new` never answer `NotLinked` and `NoTree`. Where custom sections push live items and
/// types name none past their own groups, they don't answer `DeadReference`; and without shared globals and exact heap types they
/// are refused for want of memory alone.
pub fn linked_are_served()
    ensures { LinkedAreServed }
{
    walrus_walks::laws::walk_is_plain();
    walrus_walks::laws::held_are_nested();
    walrus_tree::laws::trees_are_nested();
}
