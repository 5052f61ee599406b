//! Items of a module are copied.

use std::alloc::AllocError;
use walrus_module::Module;

// Whether all that has no collection of others is copied: each has the id of its original.
fn are_some_copied(module: &Module) -> Result<bool, AllocError> {
    let mut agree = true;
    for table in module.tables.iter() {
        agree &= table.clone()?.id() == table.id();
    }
    for memory in module.memories.iter() {
        agree &= memory.clone()?.id() == memory.id();
    }
    for global in module.globals.iter() {
        agree &= global.clone()?.id() == global.id();
    }
    for tag in module.tags.iter() {
        agree &= tag.clone()?.id() == tag.id();
    }
    Ok(agree)
}

/// Whether each import, export, table, memory, global, tag and segment is copied: it has the id of its original.
pub(crate) fn are_copied(module: &Module) -> Result<bool, AllocError> {
    let mut agree = are_some_copied(module)?;
    for import in module.imports.iter() {
        agree &= import.clone()?.id() == import.id();
    }
    for export in module.exports.iter() {
        agree &= export.clone()?.id() == export.id();
    }
    for element in module.elements.iter() {
        agree &= element.clone()?.id() == element.id();
    }
    for data in module.data_segments.iter() {
        agree &= data.clone()?.id() == data.id();
    }
    Ok(agree)
}
