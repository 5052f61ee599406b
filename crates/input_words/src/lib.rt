//! What programs look for in the bytes that they read: whether these begin as a text does, and whether they are many.
#![tactic(auto)]

mod start;

pub use start::Start;

/// From how many bytes on a program says that it has read them, where somebody sees that.
pub const LONG_INPUT_LEN: u64 = 8 << 20;

/// What is said of a file that begins as a text does, and is refused.
pub const TEXT_HINT: &str =
    "this is a text; `wat2wasm` (WABT) and `wasm-as` (Binaryen) make a module of one";
