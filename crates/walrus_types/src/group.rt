//! New members of recursion groups.
pub use walrus_type_arenas::NewType;
