//! Laws of a module that was read: it fills its collections, is linked, and means its file's module (Core Specification, binary format: modules).
#![tactic(auto)]

pub mod bodies;
pub mod filled;
pub mod filled_groups;
pub mod groups;
pub mod items;
pub mod linked;
pub mod locals;
pub mod meaning;

// Passed on to crates above, which then list this one alone.
pub mod file_bodies {
    pub mod laws {
        pub use walrus_named_bodies::file_bodies::laws::bodies_read_files;
    }
}

pub mod items_into {
    pub mod laws {
        pub use walrus_named_bodies::file_bodies::items_into::laws::{
            filled_functions_stand, filled_modules_are_filed,
        };
    }
}

pub mod module_env {
    pub mod laws {
        pub use walrus_named_bodies::file_bodies::items_into::module_env::laws::picks_are_seen;
    }
}

pub mod pairing {
    pub mod laws {
        pub use walrus_body_laws::pairing::laws::operators_come_back;
    }
}
