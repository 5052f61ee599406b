//! Functions by what users call them, and what they have.

use std::alloc::Global;
use walrus::ir::FunctionId;
use walrus::{BodyError, Finds, FunctionKind, Module, ModuleError, ModuleFunctions, Result};

// The number behind `#`.
fn number_in(word: &str) -> Option<u32> {
    let digits = word.strip_prefix("#")?;
    digits.parse::<u32>().ok()
}

// The function of this name, or that is exported under it; or of this number.
fn named(module: &Module, word: &str) -> Option<FunctionId> {
    if let Some(id) = module.find_func(word) {
        return Some(id);
    }
    let number = number_in(word)?;
    Some(FunctionId::from_index(number as usize))
}

/// The live function of this name, or that is exported under it; or `#N`, the one of number N in the file.
pub fn find(module: &Module, word: &str) -> Option<FunctionId> {
    let id = named(module, word)?;
    if module.funcs.contains(id) {
        Some(id)
    } else {
        None
    }
}

/// The operators of a function, none where it has no body; `else` and `end` aren't counted.
///
/// # Errors
///
/// `NoTree` where the body is no tree; want of memory.
pub fn operators_of(alloc: Global, funcs: &ModuleFunctions, id: FunctionId) -> Result<u64> {
    if !funcs.contains(id) {
        return Ok(0);
    }
    let FunctionKind::Local(local) = &funcs.get(id).kind else {
        return Ok(0);
    };
    match local.size(alloc) {
        Ok(size) => Ok(size),
        Err(BodyError::Memory) => Err(ModuleError::Memory),
        Err(_) => Err(ModuleError::NoTree),
    }
}
