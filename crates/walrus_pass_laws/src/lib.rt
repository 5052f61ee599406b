//! Laws of passes: what they keep is linked, and is what is reached in the module that is meant.
#![tactic(auto)]

pub mod meant;
pub mod passes;
pub mod refs;

// Passed on to crates above, which then list this one alone.
pub mod linked {
    pub use walrus_meaning::linked::{empty_is_linked, imports_keep_linked, own_ids_are_kept};
}

pub mod meaning {
    pub use walrus_meaning::{adds_are_seen, empty_means_empty, items_are_seen};
}

pub mod references {
    pub use walrus_references::kept_is_least;
}
