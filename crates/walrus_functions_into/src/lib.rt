//! The functions of a file that was read, put into a module before their bodies are read, and which body each of them gets.
#![tactic(auto)]

mod bodies;
mod functions;
pub mod laws;

pub use bodies::{FunctionBody, pair_bodies};
pub use functions::{add_bodiless, add_functions, give_body};

// Passed on to crates above, which then list this one alone.
pub mod collections {
    pub use walrus_collections::{
        ModuleData, ModuleElements, ModuleExports, ModuleFunctions, ModuleGlobals, ModuleImports,
        ModuleMemories, ModuleTables, ModuleTags,
    };
}

pub mod local_function {
    pub use walrus_collections::local_function::LocalFunction;
}

pub mod module_items {
    pub use walrus_collections::module_items::FunctionKind;
}

pub mod types_into {
    pub use walrus_types_into::read_types_into;

    pub mod laws {
        pub use walrus_types_into::laws::{new_types_stand, types_name_below};
    }
}
