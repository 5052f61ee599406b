//! Laws of a module that a file has filled, and of the file's bodies, which are read into it.
#![tactic(auto)]

pub mod laws;

// Passed on to crates above, which then list this one alone.
pub mod body_trees {
    pub mod laws {
        pub use walrus_items_into::body_trees::laws::{
            bodies_are_trees, bodies_mean_their_normal_form,
        };
    }
}

pub mod items_into {
    pub mod functions_into {
        pub mod laws {
            pub use walrus_items_into::functions_into::laws::read_functions_stand;
        }

        pub mod types_into {
            pub mod laws {
                pub use walrus_items_into::functions_into::types_into::laws::{
                    new_types_stand, types_name_below,
                };
            }
        }
    }

    pub mod laws {
        pub use walrus_items_into::laws::{
            filled_functions_stand, filled_modules_are_filed, filled_modules_are_numbered,
            named_locals_count,
        };
    }

    pub mod module_env {
        pub mod laws {
            pub use walrus_items_into::module_env::laws::{blocks_are_named, picks_are_seen};
        }
    }
}

pub mod spelled_modules {
    pub mod laws {
        pub use walrus_items_into::spelled_modules::laws::read_sections_are_spelled;
    }
}
