//! The most that a module may hold of each kind.

/// Types.
pub const MAX_WASM_TYPES: usize = 1_000_000;
/// Functions, with the imported ones.
pub const MAX_WASM_FUNCTIONS: usize = 1_000_000;
/// Imports.
pub const MAX_WASM_IMPORTS: usize = 1_000_000;
/// Exports.
pub const MAX_WASM_EXPORTS: usize = 1_000_000;
/// Globals, with the imported ones.
pub const MAX_WASM_GLOBALS: usize = 1_000_000;
/// Tags, with the imported ones.
pub const MAX_WASM_TAGS: usize = 1_000_000;
/// Tables, with the imported ones.
pub const MAX_WASM_TABLES: usize = 100;
/// Memories, with the imported ones.
pub const MAX_WASM_MEMORIES: usize = 100;
/// Element segments.
pub const MAX_WASM_ELEMENT_SEGMENTS: usize = 100_000;
/// Data segments.
pub const MAX_WASM_DATA_SEGMENTS: usize = 100_000;
/// The bytes of a name.
pub const MAX_WASM_STRING_SIZE: usize = 100_000;
/// The bytes of a function's body.
pub const MAX_WASM_FUNCTION_SIZE: usize = 7_654_321;
/// The locals of a function, with its parameters.
pub const MAX_WASM_FUNCTION_LOCALS: u32 = 50_000;
/// The parameters of a function type.
pub const MAX_WASM_FUNCTION_PARAMS: usize = 1_000;
/// The results of a function type.
pub const MAX_WASM_FUNCTION_RETURNS: usize = 1_000;
/// The fields of a struct type.
pub const MAX_WASM_STRUCT_FIELDS: usize = 10_000;
/// The supertypes of a type.
pub const MAX_WASM_SUPERTYPES: usize = 1;
/// The members of a recursion group.
pub const MAX_WASM_GROUP_TYPES: usize = 1_000_000;
/// The bytes of a module.
pub const MAX_WASM_MODULE_SIZE: usize = 1 << 30;
