//! Groups of types of modules that are read.

ghost use Rattle.walrus_parse_laws.specs.Files.{ReadModulesHaveHandlers};
ghost use Rattle.walrus_parse_laws.specs.Groups.{ReadModulesHaveGroups};
ghost use Rattle.walrus_parse_laws.specs.GroupsTexts.{ReadModulesTellTexts};

use crate::filled_groups::{groups_mean, read_types_are_declared};
use walrus_body_laws::handler_laws::laws::trees_tell;
use walrus_body_laws::pairing::laws::operators_come_back;
use walrus_function_types::laws::{entry_types_grow, found_types_stay, tables_grow_on};
use walrus_named_bodies::file_bodies::items_into::functions_into::types_into::laws::types_name_below;
use walrus_named_bodies::file_bodies::items_into::laws::{
    filled_functions_stand, filled_modules_are_filed,
};
use walrus_named_bodies::file_bodies::laws::bodies_read_files;
use wasm_import_links::body_grammar::laws::bodies_read_once;
use wasm_operators::laws::operators_in_range_are_spelled;

/// The groups of types of a module that was read are those of its file, but for single types that are merged with earlier ones, each type's
/// number being its id; behind them stand, each by itself and once, the types that handlers of legacy `try`s have and the file hasn't: from
/// the parameters of the tag that is caught to the results of the `try`. Each handler finds its block type there.
pub fn read_modules_have_groups<B>()
    ensures { ReadModulesHaveGroups B }
{
    operators_come_back();
    operators_in_range_are_spelled();
    filled_functions_stand::<B>();
    filled_modules_are_filed::<B>();
    bodies_read_files::<B>();
    entry_types_grow();
    found_types_stay();
    tables_grow_on();
    groups_mean();
    types_name_below();
    read_types_are_declared();
}

/// What the handlers of a body take and give that was read into a module, in the order of the body's tree, is what the `catch` and `catch_all`
/// of its normal form do, in their order: the parameters of the tag's type, and the results of the `try`.
pub fn read_modules_tell_texts<B>()
    ensures { ReadModulesTellTexts B }
{
    operators_come_back();
    operators_in_range_are_spelled();
    trees_tell();
    filled_functions_stand::<B>();
    filled_modules_are_filed::<B>();
    entry_types_grow();
    found_types_stay();
    tables_grow_on();
}

/// What the handlers of a module that was read take and give is what each `catch` and `catch_all` of its file does that is reached, body by body
/// in the order of the text: from the parameters of the tag's type to the results of its `try`, as the file has them, each type under the id that
/// its index has. So those that the file has no type for stand behind its types in this order, each once.
pub fn read_modules_have_handlers<B>()
    ensures { ReadModulesHaveHandlers B }
{
    operators_come_back();
    operators_in_range_are_spelled();
    trees_tell();
    bodies_read_once();
    filled_functions_stand::<B>();
    filled_modules_are_filed::<B>();
    bodies_read_files::<B>();
    entry_types_grow();
    found_types_stay();
    tables_grow_on();
}
