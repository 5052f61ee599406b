//! The bodies of a file's functions, read into the module that its sections have filled; laws, of bodies with handlers in a module whose
//! types grow too.
#![tactic(auto)]

mod env;
pub mod laws;
mod parse;

pub use env::ModuleEnv;

// Passed on to crates above, which then list this one alone.
pub mod body_env {
    pub use walrus_body_env::{BodyEnv, BodyError};

    pub mod instr {
        pub use walrus_body_env::instr::InstrSeqType;

        pub mod type_table {
            pub use walrus_body_env::instr::type_table::{ModuleLocals, ModuleTypes, ValType};
        }
    }
}

pub mod collections {
    pub use walrus_functions_into::collections::{
        ModuleData, ModuleElements, ModuleExports, ModuleFunctions, ModuleGlobals, ModuleImports,
        ModuleMemories, ModuleTables, ModuleTags,
    };

    pub mod local_function {
        pub use walrus_functions_into::local_function::LocalFunction;
    }
}

pub mod functions_into {
    pub use walrus_functions_into::{FunctionBody, add_functions, give_body, pair_bodies};

    pub mod laws {
        pub use walrus_functions_into::laws::{read_bodies_are_paired, read_functions_stand};
    }
}

pub mod handler_types {
    pub use walrus_handler_types::give_types;
}

pub mod handlers {
    pub use walrus_handler_types::{AnyHandler, handlers_if};
}

pub mod types_into {
    pub use walrus_functions_into::types_into::read_types_into;

    pub mod laws {
        pub use walrus_functions_into::types_into::laws::{new_types_stand, types_name_below};
    }
}
