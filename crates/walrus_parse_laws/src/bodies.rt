//! Bodies of a module that was read: they are whole, mean the normal forms of the file's, and what they name lives.

ghost use Rattle.walrus_parse_laws.specs.BodiesTexts.{ReadBodiesMeanTheirs};
ghost use Rattle.walrus_parse_laws.specs.Uses.{NamesOfReadBodiesLive};
ghost use Rattle.walrus_parse_laws.specs.Whole.{ReadFunctionsAreWhole};

use crate::filled::ordered_stay;
use crate::filled_groups::read_types_are_declared;
use crate::items::read_modules_have_items;
use walrus_function_types::laws::{entry_types_grow, found_types_stay, tables_grow_on};
use walrus_named_bodies::file_bodies::body_trees::laws::{
    bodies_are_trees, bodies_mean_their_normal_form,
};
use walrus_named_bodies::file_bodies::items_into::functions_into::types_into::laws::{
    new_types_stand, types_name_below,
};
use walrus_named_bodies::file_bodies::items_into::laws::{
    filled_functions_stand, filled_modules_are_filed,
};
use walrus_named_bodies::file_bodies::items_into::module_env::laws::{
    blocks_are_named, picks_are_seen,
};
use walrus_named_bodies::file_bodies::laws::bodies_read_files;
use wasm_import_links::body_grammar::laws::bodies_read_once;
use wasm_import_links::laws::read_modules_are_full;
use wasm_import_links::ruled_modules::laws::read_modules_are_ruled;
use wasm_operators::laws::names_are_renamed;

/// In a module that was read each function is imported, or has a body of distinct arguments, one for each parameter of its type, whose
/// sequences form a tree in which each label names a sequence around it.
pub fn functions_of_read_modules_are_whole<B>()
    ensures { ReadFunctionsAreWhole B }
{
    filled_functions_stand::<B>();
    filled_modules_are_filed::<B>();
    bodies_are_trees();
    entry_types_grow();
    found_types_stay();
    tables_grow_on();
    picks_are_seen();
}

/// In a module that was read the function of each body of the file means that body's normal form: its operators are the normal form's, each
/// index renamed to the id that it names, and each block type to that of its pick, at the places that they carry.
pub fn bodies_of_read_modules_mean_theirs<B>()
    ensures { ReadBodiesMeanTheirs B }
{
    filled_functions_stand::<B>();
    filled_modules_are_filed::<B>();
    bodies_mean_their_normal_form();
    bodies_read_once();
    entry_types_grow();
    found_types_stay();
    tables_grow_on();
    picks_are_seen();
    blocks_are_named();
}

/// In a module that was read, what the operators of each body of the file name lives: types, also inside block types, heap types and value
/// types, functions, tables, memories, tags, globals and segments; labels and locals are the body's own.
pub fn names_of_read_bodies_live<B>()
    ensures { NamesOfReadBodiesLive B }
{
    bodies_of_read_modules_mean_theirs::<B>();
    bodies_read_files::<B>();
    read_modules_have_items::<B>();
    read_modules_are_full();
    read_modules_are_ruled();
    ordered_stay();
    names_are_renamed();
    new_types_stand();
    types_name_below();
    read_types_are_declared();
    found_types_stay();
    tables_grow_on();
}
