//! Whether a module is refused for what is reached in it.
#![tactic(auto)]

mod arguments;
mod checks;
mod claims;
mod grouped;
mod linked;
mod live;
mod sound;
mod trees;
mod written;

pub use linked::{brought, is_same};
pub use sound::reach_sound;

// Passed on to crates above, which then list this one alone.
pub mod used {
    pub use walrus_used::{id_counts, type_count};

    pub mod collections {
        pub use walrus_used::collections::{Collection, ModuleImports};
    }

    pub mod local_function {
        pub use walrus_used::local_function::LocalFunction;
    }

    pub mod module {
        pub use walrus_used::module::Module;
    }
}
