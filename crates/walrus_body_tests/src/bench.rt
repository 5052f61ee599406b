//! What rows work on. One function owns it, since each that does is dear to prove.

use crate::forms::id;
use std::alloc::{AllocError, Global};
use walrus_body_writer::Output;
use walrus_index_maps::IdsToIndices;
use walrus_items::ModuleLocals;
use walrus_types::{ModuleTypes, ValType};

/// What a row begins with: nothing is written, and places are kept.
#[derive(Drop)]
pub(crate) struct Bench {
    /// Numbers of the first function, memory, global, tag and data segment.
    pub(crate) maps: IdsToIndices,
    /// No locals.
    pub(crate) locals: ModuleLocals,
    /// The first two types of the tests' module.
    pub(crate) types: ModuleTypes,
    /// Where bodies are written.
    pub(crate) out: Output,
}

fn numbers(alloc: Global) -> Result<IdsToIndices, AllocError> {
    let mut maps = IdsToIndices::new(alloc);
    maps.push_func(id(0))?;
    maps.push_memory(id(0))?;
    maps.push_global(id(0))?;
    maps.push_tag(id(0))?;
    maps.set_data_index(id(0), 0)?;
    Ok(maps)
}

fn types(alloc: Global) -> Result<ModuleTypes, AllocError> {
    let mut types = ModuleTypes::new(alloc);
    types.add(&[], &[])?;
    types.add(&[ValType::I32], &[])?;
    Ok(types)
}

impl Bench {
    pub(crate) fn new(alloc: Global) -> Result<Self, AllocError> {
        let maps = numbers(alloc)?;
        let types = types(alloc)?;
        Ok(Bench {
            maps,
            locals: ModuleLocals::new(alloc),
            types,
            out: Output::new(alloc, true),
        })
    }
}
