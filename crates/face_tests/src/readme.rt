//! The example of `README.md`, *The library*, as it stands there.

use std::alloc::Global;
use walrus::passes::gc;
use walrus::{EmitWasm, FromBuffer, Module, Result};

/// The module without what nothing reaches.
pub fn without_unused(alloc: Global, bytes: &[u8]) -> Result<Vec<u8>> {
    let mut module: Module = Module::from_buffer(alloc, bytes)?;
    gc::run(alloc, &mut module)?;
    module.emit_wasm(alloc)
}
