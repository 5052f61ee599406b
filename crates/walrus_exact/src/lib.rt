//! Exact heap types, which stand in no file: whether there is one in an item of a module.
#![tactic(auto)]

mod bodies;
mod items;
mod types;

pub use bodies::seq_exact;
pub use items::{data_exact, element_exact, global_exact, table_exact};
pub use types::{form_exact, ref_exact, val_exact};

// Passed on to crates above, which then list this one alone.
pub mod local_function {
    pub use walrus_module_items::local_function::LocalFunction;
}

pub mod module_items {
    pub use walrus_module_items::{FunctionKind, GlobalKind, Import, ImportKind, TagKind};
}
