//! What of a module is kept.
#![tactic(auto)]

mod bodies;
mod counts;
mod module_names;
mod names;
mod roots;
mod segments;
mod sweep;

pub use bodies::reached_seqs;
pub use counts::{id_counts, reach_items, type_count};
pub use sweep::{Check, Reached};

// Passed on to crates above, which then list this one alone.
pub mod collections {
    pub use walrus_module::collections::{
        Collection, ModuleData, ModuleElements, ModuleFunctions, ModuleGlobals, ModuleImports,
        ModuleMemories, ModuleTables, ModuleTags,
    };
}

pub mod local_function {
    pub use walrus_module::local_function::LocalFunction;
}

pub mod module {
    pub use walrus_module::Module;
}
