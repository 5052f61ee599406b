//! Modules that are read are served: no pass refuses one but for want of memory, exact heap types aside.

ghost use Rattle.walrus_parse_gc_laws.specs.Served.{ReadModulesAreServed, SentModulesAreServed};
ghost use Rattle.walrus_parse_gc_laws.specs.Stays.{ReadTypesStayInGroups};

use walrus_instr::InstrLocId;
use walrus_parse_laws::file_bodies::laws::bodies_read_files;
use walrus_parse_laws::groups::read_modules_have_handlers;
use walrus_parse_laws::linked::modules_that_are_read_are_linked;
use walrus_pass_laws::passes::linked_are_served;

/// In a module that was read each type names types that stand no later than itself, or that are members of its group.
pub fn types_of_read_modules_stay_in_groups<B>()
    ensures { ReadTypesStayInGroups B }
{
    read_modules_have_handlers::<B>();
    bodies_read_files::<B>();
}

/// A module that was read isn't refused by `gc::run` and `Used::new` for items and imports that don't name each other, nor for bodies that
/// are no trees. Where custom sections push live items it isn't refused for dead references either; and where no heap type in what is
/// reached is exact, nothing is wrong with what is reached, so that it is refused for want of memory alone.
pub fn modules_that_are_read_are_served<B>()
    ensures { ReadModulesAreServed B }
{
    types_of_read_modules_stay_in_groups::<B>();
    modules_that_are_read_are_linked::<B>();
    linked_are_served();
}

/// So it is of a module that was read and whose locations were then sent through a callback, as the one is that `parse_with` hands on.
pub fn sent_modules_are_served<F: FnMut(u32) -> InstrLocId, B>()
    ensures { SentModulesAreServed F.step B }
{
    types_of_read_modules_stay_in_groups::<B>();
    modules_that_are_read_are_linked::<B>();
    linked_are_served();
}
