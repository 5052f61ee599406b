//! What is found in a module by what it names.

use crate::imports::fill;
use std::alloc::{AllocError, Global};
use walrus_arena::{FunctionId, MemoryId, TableId};
use walrus_config::ModuleConfig;
use walrus_errors::ModuleError;
use walrus_module::Module;
use walrus_module_items::FunctionKind;

// Exports of the own table and memory.
fn name(module: &mut Module) -> Result<(), AllocError> {
    module.exports.add("t", TableId::from_index(1))?;
    module.exports.add("m", MemoryId::from_index(1))?;
    Ok(())
}

fn are_exported(module: &Module) -> bool {
    let exports = &module.exports;
    exports.get_exported_table(TableId::from_index(1)).is_some()
        && exports.get_exported_table(TableId::from_index(0)).is_none()
        && exports
            .get_exported_memory(MemoryId::from_index(1))
            .is_some()
        && exports
            .get_exported_memory(MemoryId::from_index(0))
            .is_none()
}

fn are_imported(module: &Module) -> bool {
    let imports = &module.imports;
    imports
        .get_imported_func(FunctionId::from_index(0))
        .is_some()
        && imports
            .get_imported_func(FunctionId::from_index(1))
            .is_none()
        && module.funcs.by_name("f").is_none()
        && matches!(module.get_memory_id(), Err(ModuleError::Several))
}

// The number of the type of a function, from what it is.
fn type_of(kind: &FunctionKind) -> usize {
    match kind {
        FunctionKind::Import(_) => kind.unwrap_import().ty.index(),
        FunctionKind::Local(_) => kind.unwrap_local().ty().index(),
        FunctionKind::Uninitialized(_) => 100,
    }
}

fn are_typed(module: &Module) -> bool {
    for index in 0..2 {
        let id = FunctionId::from_index(index);
        if !module.funcs.contains(id) || type_of(&module.funcs.get(id).kind) != 0 {
            return false;
        }
    }
    true
}

// Whether the export of the table is found until it is removed.
fn is_removed(module: &mut Module) -> bool {
    let Some(export) = module.exports.get_exported_table(TableId::from_index(1)) else {
        return false;
    };
    let id = export.id();
    if !module.exports.contains(id) {
        return false;
    }
    module.exports.remove_root(id);
    module
        .exports
        .get_exported_table(TableId::from_index(1))
        .is_none()
}

fn finds(alloc: Global, module: &mut Module) -> Result<bool, AllocError> {
    fill(alloc, module)?;
    name(module)?;
    Ok(are_exported(module) && are_imported(module) && are_typed(module) && is_removed(module))
}

fn all_found(alloc: Global) -> Result<bool, AllocError> {
    let mut module = Module::with_config(alloc, ModuleConfig::new());
    finds(alloc, &mut module)
}

#[test]
fn items_are_found(rt: HostRuntime) {
    assert!(rt; matches!(all_found(rt.alloc()), Ok(true)));
}
