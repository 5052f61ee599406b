//! What is looked at of a file that is read.

use crate::locations::are_at;
use crate::names::are_called;
use std::alloc::Global;
use walrus_config::ModuleConfig;
use walrus_errors::{ModuleError, Result};
use walrus_module::Module;
use walrus_parse::{FromBuffer, Parse};

/// The call that reads a file.
#[derive(Clone, Copy)]
pub(crate) enum Call {
    FromBuffer,
    FromBufferWithConfig,
    Parse,
}

/// The file, read under these flags, or under the default ones by the call that takes none.
pub(crate) fn read_by(
    alloc: Global,
    call: Call,
    config: &ModuleConfig,
    bytes: &[u8],
) -> Result<Module<()>> {
    match call {
        Call::FromBuffer => Module::from_buffer(alloc, bytes),
        Call::FromBufferWithConfig => Module::from_buffer_with_config(alloc, bytes, config),
        Call::Parse => config.parse(alloc, bytes),
    }
}

/// What the first function and the first two locals of a module are called, empty where they have no name.
#[derive(Clone, Copy)]
pub(crate) struct Called<'a> {
    pub(crate) function: &'a str,
    pub(crate) first: &'a str,
    pub(crate) second: &'a str,
}

/// What is asked of a module.
#[derive(Clone, Copy)]
pub(crate) enum Ask<'a> {
    /// what its first function and its first two locals are called
    Names(Called<'a>),
    /// the numbers of its locations
    Places(&'a [u32]),
    /// how many locals it holds
    Locals(usize),
    /// a start function
    Start,
}

fn meets(alloc: Global, module: &Module<()>, ask: Ask<'_>) -> bool {
    match ask {
        Ask::Names(names) => are_called(module, names),
        Ask::Places(places) => are_at(alloc, module, places),
        Ask::Locals(count) => module.locals.iter().as_slice().len() == count,
        Ask::Start => module.start.is_some(),
    }
}

/// Whether a module was read that meets this. (The one function that lets modules go, since each that does is dear to prove.)
pub(crate) fn has(alloc: Global, read: Result<Module<()>>, ask: Ask<'_>) -> bool {
    match read {
        Ok(module) => meets(alloc, &module, ask),
        Err(_) => false,
    }
}

/// Why nothing was read, if nothing was.
pub(crate) fn refused<T: Drop>(read: Result<T>) -> Option<ModuleError> {
    match read {
        Ok(_) => None,
        Err(error) => Some(error),
    }
}
