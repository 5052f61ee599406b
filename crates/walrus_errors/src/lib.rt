//! Why a call on a module is refused.
#![tactic(auto)]

mod error;

pub use error::{ErrorKind, ModuleError, Result};
pub use wasm_formats::{Form, Limited, Space};
