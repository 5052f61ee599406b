//! All items of a file that was read, put into the collections of a new module; bodies and names aside.
#![tactic(auto)]

mod items;
pub mod laws;
mod numbers;

pub use items::read_items;

// Passed on to crates above, which then list this one alone.
pub mod body_trees {
    pub mod laws {
        pub use walrus_module_bodies::body_trees::laws::{
            bodies_are_trees, bodies_mean_their_normal_form,
        };
    }
}

pub mod functions_into {
    pub use walrus_module_bodies::functions_into::{FunctionBody, pair_bodies};

    pub mod laws {
        pub use walrus_module_bodies::functions_into::laws::read_functions_stand;
    }

    pub mod types_into {
        pub mod laws {
            pub use walrus_module_bodies::types_into::laws::{new_types_stand, types_name_below};
        }
    }
}

pub mod module_bodies {
    pub use walrus_module_bodies::{FileEnv, read_bodies};

    pub mod laws {
        pub use walrus_module_bodies::laws::steps_read_codes;
    }
}

pub mod module_env {
    pub mod laws {
        pub use walrus_module_bodies::module_env::laws::{blocks_are_named, picks_are_seen};
    }
}

pub mod spelled_modules {
    pub mod laws {
        pub use walrus_read_laws::spelled_modules::laws::read_sections_are_spelled;
    }
}
