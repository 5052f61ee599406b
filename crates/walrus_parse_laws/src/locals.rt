//! The locals of a module that was read: those of the file's bodies in their normal forms.

ghost use Rattle.walrus_parse_laws.specs.Locals.{ReadBodiesHaveTheirLocals};

use crate::bodies::bodies_of_read_modules_mean_theirs;
use walrus_function_types::laws::{entry_types_grow, found_types_stay, tables_grow_on};
use walrus_named_bodies::file_bodies::items_into::laws::{
    filled_functions_stand, filled_modules_are_filed,
};
use wasm_import_links::body_grammar::laws::bodies_read_once;

/// In a module that was read the function of each body of the file declares the locals of that body's normal form, types under the ids of
/// their indices: the used ones, by type. Among the ids of its locals each parameter and each used local stands at its new number.
pub fn bodies_of_read_modules_have_their_locals<B>()
    ensures { ReadBodiesHaveTheirLocals B }
{
    bodies_of_read_modules_mean_theirs::<B>();
    filled_functions_stand::<B>();
    filled_modules_are_filed::<B>();
    bodies_read_once();
    entry_types_grow();
    found_types_stay();
    tables_grow_on();
}
