//! The refusals of a type table.
pub use walrus_type_arenas::IrError;
