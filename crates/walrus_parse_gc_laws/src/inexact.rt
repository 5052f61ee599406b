//! No heap type in a module that was read is exact, so that no pass refuses one but for want of memory.

ghost use Rattle.walrus_parse_gc_laws.specs.Passed.{ReadModulesHaveNoExact, ReadModulesPass, SentModulesPass};

use crate::served::{modules_that_are_read_are_served, sent_modules_are_served};
use walrus_function_types::laws::{entry_types_grow, found_types_stay, tables_grow_on};
use walrus_instr::InstrLocId;
use walrus_parse_laws::groups::read_modules_have_handlers;
use walrus_parse_laws::items::read_modules_have_items;
use walrus_parse_laws::items_into::laws::{filled_functions_stand, filled_modules_are_filed};
use walrus_parse_laws::module_env::laws::picks_are_seen;
use walrus_parse_laws::pairing::laws::operators_come_back;
use wasm_inexact_modules::laws::{read_bodies_are_inexact, read_sections_are_inexact};
use wasm_operators::laws::operators_in_range_are_spelled;

/// In a module that was read no heap type is exact: in no type, table, global, segment or local, and in no reached sequence of a body.
pub fn read_modules_have_no_exact<B>()
    ensures { ReadModulesHaveNoExact B }
{
    read_modules_have_items::<B>();
    read_modules_have_handlers::<B>();
    filled_functions_stand::<B>();
    filled_modules_are_filed::<B>();
    entry_types_grow();
    found_types_stay();
    tables_grow_on();
    operators_come_back();
    operators_in_range_are_spelled();
    picks_are_seen();
    read_sections_are_inexact();
    read_bodies_are_inexact();
}

/// A module that was read isn't refused by `gc::run` and `Used::new` for items and imports that don't name each other, nor for bodies that
/// are no trees. Where custom sections push live items, nothing is wrong with what is reached, so that it is refused for want of memory alone.
pub fn modules_that_are_read_pass<B>()
    ensures { ReadModulesPass B }
{
    modules_that_are_read_are_served::<B>();
    read_modules_have_no_exact::<B>();
}

/// So it is of a module that was read and whose locations were then sent through a callback, as the one is that `parse_with` hands on.
pub fn sent_modules_pass<F: FnMut(u32) -> InstrLocId, B>()
    ensures { SentModulesPass F.step B }
{
    sent_modules_are_served::<F, B>();
    read_modules_have_no_exact::<B>();
}
