//! The items of a module: imports, exports, functions, tables, memories, globals, tags and segments.
#![tactic(auto)]

mod data;
mod element;
mod export;
mod function;
mod global;
mod import;
mod memory;
mod table;
mod tag;

pub use data::{Data, DataKind};
pub use element::{Element, ElementItems, ElementKind};
pub use export::{Export, ExportItem};
pub use function::{FuncParams, FuncResults, Function, FunctionKind, ImportedFunction};
pub use global::{Global, GlobalKind};
pub use import::{Import, ImportKind};
pub use memory::Memory;
pub use table::Table;
pub use tag::{Tag, TagKind};

// Passed on to crates above, which then list this one alone.
pub mod local_function {
    pub use walrus_local_function::LocalFunction;
}
