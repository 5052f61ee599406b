//! The collections of a module: items under ids, and what each kind adds to that.
#![tactic(auto)]

mod collection;
mod exports;
mod functions;
mod globals;
mod imports;
mod iter;
mod memories;
mod segments;
mod tables;
mod tags;

pub use collection::{Collection, Test};
pub use exports::{ExportOf, ModuleExports};
pub use functions::{LocalFunctions, ModuleFunctions};
pub use globals::ModuleGlobals;
pub use imports::{ImportOf, ModuleImports};
pub use iter::Items;
pub use memories::ModuleMemories;
pub use segments::{ModuleData, ModuleElements};
pub use tables::ModuleTables;
pub use tags::ModuleTags;

// Passed on to crates above, which then list this one alone.
pub mod local_function {
    pub use walrus_module_items::local_function::LocalFunction;
}

pub mod module_items {
    pub use walrus_module_items::{
        Data, DataKind, Element, ElementItems, ElementKind, Export, ExportItem, Function,
        FunctionKind, Global, GlobalKind, ImportKind, Memory, Table, Tag,
    };
}
