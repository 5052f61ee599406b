//! Laws of bodies that were read: their sequences form a tree, which means the normal form.
#![tactic(auto)]

pub mod laws;

// Passed on to crates above, which then list this one alone.
pub mod meaning {
    pub use walrus_meaning::names_are_told;
}
