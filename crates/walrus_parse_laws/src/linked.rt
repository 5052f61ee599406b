//! Modules that are read are linked: what types name lives, and so does what indices name.

ghost use Rattle.walrus_parse_laws.specs.Indices.{IndicesOfReadModulesLive};
ghost use Rattle.walrus_parse_laws.specs.Linked.{ReadModulesAreLinked, WalksOfReadBodiesNameLocals};
ghost use Rattle.walrus_parse_laws.specs.Types.{NamesOfReadTypesLive};

use crate::bodies::functions_of_read_modules_are_whole;
use crate::filled::ordered_stay;
use crate::filled_groups::read_types_are_declared;
use crate::items::{names_of_read_items_live, read_modules_have_items, read_modules_have_links};
use crate::locals::bodies_of_read_modules_have_their_locals;
use walrus_body_laws::walking::{handlers_have_answers, walks_name_answers};
use walrus_function_types::laws::{entry_types_grow, found_types_stay, tables_grow_on};
use walrus_named_bodies::file_bodies::items_into::functions_into::types_into::laws::{
    new_types_stand, types_name_below,
};
use walrus_named_bodies::file_bodies::items_into::laws::{
    filled_functions_stand, filled_modules_are_filed,
};
use walrus_named_bodies::file_bodies::laws::bodies_read_files;
use walrus_pass_laws::refs::walks_name_used_locals;
use wasm_import_links::laws::read_modules_are_full;
use wasm_import_links::ruled_modules::laws::read_modules_are_ruled;

/// In a module that was read, what the type of each index of the file names lives: the types of its form, and its supertype.
pub fn names_of_read_types_live<B>()
    ensures { NamesOfReadTypesLive B }
{
    read_modules_have_items::<B>();
    bodies_read_files::<B>();
    read_modules_are_ruled();
    new_types_stand();
    types_name_below();
    read_types_are_declared();
    found_types_stay();
    tables_grow_on();
}

/// In a module that was read, the id that an index of the file has is that of an item that lives, in each space but those of locals and
/// labels, which are a body's own.
pub fn indices_of_read_modules_live<B>()
    ensures { IndicesOfReadModulesLive B }
{
    filled_modules_are_filed::<B>();
    bodies_read_files::<B>();
    read_modules_have_items::<B>();
    read_modules_are_full();
    ordered_stay();
    new_types_stand();
    types_name_below();
    read_types_are_declared();
    found_types_stay();
    tables_grow_on();
}

/// In a module that was read the walk of a body names locals of the module alone, though an index that no operator names has the id of none.
pub fn walks_of_read_bodies_name_locals<B>()
    ensures { WalksOfReadBodiesNameLocals B }
{
    bodies_of_read_modules_have_their_locals::<B>();
    functions_of_read_modules_are_whole::<B>();
    walks_name_used_locals();
}

/// A module that was read is linked: each import names a live item that names it back, and each imported item a live import; functions are
/// imported, or have a body of their arguments whose sequences form a tree; and what its types with their explicit groups, its items and
/// bodies name, what it exports and what it starts lives.
pub fn modules_that_are_read_are_linked<B>()
    ensures { ReadModulesAreLinked B }
{
    functions_of_read_modules_are_whole::<B>();
    read_modules_have_links::<B>();
    names_of_read_items_live::<B>();
    indices_of_read_modules_live::<B>();
    filled_functions_stand::<B>();
    filled_modules_are_filed::<B>();
    bodies_read_files::<B>();
    read_types_are_declared();
    entry_types_grow();
    found_types_stay();
    tables_grow_on();
    walks_name_answers();
    handlers_have_answers();
    walks_of_read_bodies_name_locals::<B>();
}
