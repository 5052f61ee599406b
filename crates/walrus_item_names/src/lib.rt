//! The names of a file, given to the items of a module (Core Specification, appendix Custom Sections: name section). Calls take
//! its collections alone: a call that lends a module with its boxes is one of which `rt verdict` says that it hides something.
#![tactic(auto)]

mod call;
mod give;
mod kinds;
mod synthetic;
mod target;

pub use give::give_names;
pub use synthetic::give_synthetic_names;

// Passed on to crates above, which then list this one alone.
pub mod module {
    pub use walrus_module::Module;

    pub mod collections {
        pub use walrus_module::collections::{
            ModuleData, ModuleElements, ModuleExports, ModuleFunctions, ModuleGlobals,
            ModuleImports, ModuleMemories, ModuleTables, ModuleTags,
        };
    }
}
