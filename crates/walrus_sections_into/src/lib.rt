//! What was read of a file becomes the items of a module: names by number become names by id.
#![tactic(auto)]

mod consts;
mod error;
mod exports;
mod exprs;
mod ids;
mod imports;
mod memories;
mod numbers;
mod segments;
mod tags;

pub use error::IntoError;
pub use exports::{add_exports, read_start};
pub use exprs::read_expr;
pub use ids::{function_id, import_id, table_id, type_id};
pub use imports::add_imports;
pub use memories::add_memories;
pub use numbers::{
    number_elements, number_functions, number_globals, number_memories, number_segments,
    number_tables, number_tags,
};
pub use segments::add_segments;
pub use tags::add_tags;

// Passed on to crates above, which then list this one alone.
pub mod arena {
    pub use walrus_arena::{FunctionId, GlobalId};
}

pub mod collections {
    pub use walrus_collections::{ModuleElements, ModuleGlobals, ModuleTables};
}

pub mod forms {
    pub use walrus_forms::{HeapRecord, HeapType, RefRecord, RefType, ValRecord, ValType};
}

pub mod index_maps {
    pub use walrus_index_maps::IndicesToIds;
}

pub mod instr {
    pub use walrus_instr::ConstExpr;
}

pub mod known_sections {
    pub use walrus_known_sections::{Custom, Element, ElementItems, Mode, Table, TableType};
}

pub mod module_items {
    pub use walrus_collections::module_items::{ElementItems, ElementKind, GlobalKind};
}

pub mod operators {
    pub use walrus_operators::Operator;
}
