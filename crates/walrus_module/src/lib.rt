//! A module, as a program edits it.
#![tactic(auto)]

mod add_imports;
mod build;
mod module;
mod replace;

pub use module::Module;

// Passed on to crates above, which then list this one alone.
pub mod collections {
    pub use walrus_collections::{
        Collection, ModuleData, ModuleElements, ModuleExports, ModuleFunctions, ModuleGlobals,
        ModuleImports, ModuleMemories, ModuleTables, ModuleTags,
    };
}

pub mod local_function {
    pub use walrus_collections::local_function::LocalFunction;
}

pub mod module_items {
    pub use walrus_collections::module_items::{
        Data, DataKind, Element, ElementItems, ElementKind, Export, ExportItem, Function,
        FunctionKind, Global, GlobalKind, ImportKind, Memory, Table, Tag,
    };
}
