//! Laws of collections: what their iterators give, when imports are equal, and that calls are edits that keep items' own ids.

pub use crate::given::{items_are_live, locals_are_live};
pub use crate::imports::imports_go_by_fields;
pub use crate::own_ids::{
    add_data, add_element, add_export, add_function, add_global, add_import, add_imported_function,
    add_imported_global, add_imported_memory, add_imported_table, add_imported_tag, add_memory,
    add_table, add_tag, delete,
};
