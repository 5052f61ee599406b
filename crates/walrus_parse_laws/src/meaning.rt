//! Modules that are read mean those of their files.

ghost use Rattle.walrus_parse_laws.specs.Means.{ReadModulesMeanFiles};

use crate::bodies::bodies_of_read_modules_mean_theirs;
use crate::filled::{customs_mean, ordered_stay};
use crate::filled_groups::{groups_mean, read_types_are_declared};
use crate::groups::{read_modules_have_groups, read_modules_have_handlers};
use crate::items::read_modules_have_items;
use crate::linked::modules_that_are_read_are_linked;
use crate::locals::bodies_of_read_modules_have_their_locals;
use walrus_function_types::laws::{entry_types_grow, found_types_stay, tables_grow_on};
use walrus_named_bodies::file_bodies::items_into::functions_into::types_into::laws::{
    new_types_stand, types_name_below,
};
use walrus_named_bodies::file_bodies::items_into::laws::{
    filled_functions_stand, filled_modules_are_filed, named_locals_count,
};
use walrus_named_bodies::file_bodies::laws::bodies_read_files;
use wasm_import_links::body_grammar::laws::bodies_read_once;
use wasm_import_links::ruled_modules::laws::read_modules_are_ruled;

/// A module that was read means the module that its bytes read as: the same items, each index the id of what it names, bodies in their
/// normal forms with the block types that are picked, single types merged with equal earlier ones, and behind these the types of
/// handlers that the file hasn't, in the order of the text. Each index has an id: types stand under theirs, which follow one another as
/// their groups do, and locals of the file's types under theirs, none under two. The sequences of its functions stand as the file's
/// bodies, each part with its type. Its functions use the locals of these normal forms, in their order; its custom sections are the
/// file's, but for those whose names and producers it has; its producers name this tool, and what has names has the last that it was
/// given. It is linked, and the file's module meets the rules.
pub fn modules_that_are_read_mean_their_files<B>()
    ensures { ReadModulesMeanFiles B }
{
    read_modules_have_items::<B>();
    bodies_of_read_modules_mean_theirs::<B>();
    bodies_of_read_modules_have_their_locals::<B>();
    read_modules_have_groups::<B>();
    read_modules_have_handlers::<B>();
    modules_that_are_read_are_linked::<B>();
    read_modules_are_ruled();
    customs_mean::<B>();
    ordered_stay();
    filled_functions_stand::<B>();
    bodies_read_files::<B>();
    new_types_stand();
    types_name_below();
    found_types_stay();
    tables_grow_on();
    entry_types_grow();
    filled_modules_are_filed::<B>();
    named_locals_count::<B>();
    bodies_read_once();
    groups_mean();
    read_types_are_declared();
}
