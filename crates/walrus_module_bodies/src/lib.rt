//! The bodies of a file's functions, read into its module with the types of their handlers.
#![tactic(auto)]

mod arguments;
mod aside;
mod bodies;
mod body;
mod file;
mod handled;
pub mod laws;
mod tries;

pub use bodies::read_bodies;
pub use body::read_function;
pub use file::FileEnv;

// Passed on to crates above, which then list this one alone.
pub mod body_trees {
    pub mod laws {
        pub use walrus_body_trees::laws::{bodies_are_trees, bodies_mean_their_normal_form};
    }
}

pub mod collections {
    pub use walrus_module_env::collections::{
        ModuleData, ModuleElements, ModuleExports, ModuleFunctions, ModuleGlobals, ModuleImports,
        ModuleMemories, ModuleTables, ModuleTags,
    };
}

pub mod functions_into {
    pub use walrus_module_env::functions_into::{FunctionBody, add_functions, pair_bodies};

    pub mod laws {
        pub use walrus_module_env::functions_into::laws::{
            read_bodies_are_paired, read_functions_stand,
        };
    }
}

pub mod module_env {
    pub mod laws {
        pub use walrus_module_env::laws::{blocks_are_named, picks_are_seen, read_types_are_filed};
    }
}

pub mod types {
    pub use walrus_module_env::body_env::instr::type_table::ModuleTypes;
}

pub mod types_into {
    pub use walrus_module_env::types_into::read_types_into;

    pub mod laws {
        pub use walrus_module_env::types_into::laws::{new_types_stand, types_name_below};
    }
}
