//! What a module that was read means: the items of its file's module (Core Specification, binary format: modules); what names one another
//! in it (imports and what they bring, exports, the start function), and what items name.

ghost use Rattle.walrus_parse_laws.specs.Items.{ReadModulesHaveItems};
ghost use Rattle.walrus_parse_laws.specs.Links.{ReadModulesHaveLinks};
ghost use Rattle.walrus_parse_laws.specs.Named.{NamesOfReadItemsLive};

use crate::filled::{functions_fill, module_means, ordered_stay};
use crate::filled_groups::read_types_are_declared;
use walrus_function_types::laws::{found_types_stay, tables_grow_on};
use walrus_named_bodies::file_bodies::items_into::functions_into::laws::read_functions_stand;
use walrus_named_bodies::file_bodies::items_into::functions_into::types_into::laws::{
    new_types_stand, types_name_below,
};
use walrus_named_bodies::file_bodies::laws::bodies_read_files;
use walrus_walks::visit_laws::expressions_tell_their_operators;
use wasm_import_links::laws::{read_modules_are_full, read_modules_link};
use wasm_import_links::ruled_modules::laws::read_modules_are_ruled;
use wasm_module_rules::laws::read_modules_are_linked;

/// A module that was read means the items of the file's module, each at its place, types inside them under the ids that their numbers are
/// found to have; groups of types and bodies aside (Core Specification, binary format: modules).
pub fn read_modules_have_items<B>()
    ensures { ReadModulesHaveItems B }
{
    ordered_stay();
    module_means();
    functions_fill();
    types_name_below();
    new_types_stand();
    read_functions_stand();
    bodies_read_files::<B>();
}

/// In a module that was read each import names a live item that names it back, and each imported item a live import; what exports give out
/// lives, and so does the start function.
pub fn read_modules_have_links<B>()
    ensures { ReadModulesHaveLinks B }
{
    read_modules_have_items::<B>();
    read_modules_link();
    read_modules_are_full();
    read_modules_are_linked();
}

/// In a module that was read, what tables, memories, tags, globals and segments name lives, and so does the type of each function; types
/// and bodies aside.
pub fn names_of_read_items_live<B>()
    ensures { NamesOfReadItemsLive B }
{
    read_modules_have_items::<B>();
    read_modules_are_full();
    read_modules_are_ruled();
    new_types_stand();
    types_name_below();
    read_types_are_declared();
    found_types_stay();
    tables_grow_on();
    expressions_tell_their_operators();
    bodies_read_files::<B>();
}
