//! Functions that are put in the place of others.

use std::alloc::{AllocError, Global};
use walrus_arena::{FunctionId, GlobalId};
use walrus_builder::FunctionBuilder;
use walrus_errors::ModuleError;
use walrus_module::Module;
use walrus_module::local_function::LocalFunction;
use walrus_module_items::FunctionKind;

// The first function of a module.
fn old() -> FunctionId {
    FunctionId::from_index(0)
}

// What came of a call that replaces a function: the number of the new one; or 100 where none is found, 101 where it is of the wrong kind.
fn told(replaced: Result<FunctionId, ModuleError>) -> usize {
    match replaced {
        Ok(id) => id.index(),
        Err(ModuleError::NotFound) => 100,
        Err(ModuleError::WrongKind) => 101,
        Err(_) => 102,
    }
}

fn replace_exported(module: &mut Module, function: FunctionId) -> usize {
    if !module.has_live_type(function) {
        return 102;
    }
    told(module.replace_exported_func(function, |body, _args| {
        body.i32_const(4321)?;
        body.drop()
    }))
}

fn replace_imported(module: &mut Module, function: FunctionId) -> usize {
    if !module.has_live_type(function) {
        return 102;
    }
    told(module.replace_imported_func(function, |body, _args| body.unreachable()))
}

// Whether the body of a function has so many instructions.
fn has_length(module: &Module, function: FunctionId, length: usize) -> bool {
    if !module.funcs.contains(function) {
        return false;
    }
    match &module.funcs.get(function).kind {
        FunctionKind::Local(local) => {
            let entry = local.entry_block();
            local.contains_block(entry) && local.block(entry).instrs.len() == length
        }
        _ => false,
    }
}

// Adds a function that is exported twice, and an export of a global.
fn add_exports(alloc: Global, module: &mut Module) -> Result<(), AllocError> {
    let mut builder = FunctionBuilder::new(alloc, &mut module.types, &[], &[])?;
    builder.func_body().call(old())?;
    let function = LocalFunction::new(Vec::new(alloc), builder);
    let function = module.funcs.add_local(function)?;
    module.exports.add("dummy", function)?;
    module.exports.add("other", function)?;
    module.exports.add("global", GlobalId::from_index(3))?;
    Ok(())
}

/// Whether both exports of a function are replaced in turn, and then none is found.
pub(crate) fn exports_are_replaced(alloc: Global, module: &mut Module) -> Result<bool, AllocError> {
    add_exports(alloc, module)?;
    Ok(
        replace_exported(module, old()) == 1
            && replace_exported(module, old()) == 2
            && has_length(module, FunctionId::from_index(1), 2)
            && has_length(module, old(), 1)
            && module.exports.get_exported_func(old()).is_none()
            && module
                .exports
                .get_exported_global(GlobalId::from_index(3))
                .is_some()
            && module
                .exports
                .get_exported_global(GlobalId::from_index(4))
                .is_none()
            && replace_exported(module, old()) == 100
            && replace_imported(module, old()) == 100,
    )
}

// Adds a function that is imported, and exports it.
fn add_import(module: &mut Module) -> Result<(), AllocError> {
    let ty = module.types.add(&[], &[])?;
    let ids = module.add_import_func("mod", "dummy", ty)?;
    module.exports.add("dummy", ids.0)?;
    Ok(())
}

/// Whether an imported function gets a body, and its import goes.
pub(crate) fn import_is_replaced(module: &mut Module) -> Result<bool, AllocError> {
    add_import(module)?;
    Ok(
        replace_exported(module, old()) == 101
            && module.imports.find("mod", "dummy").is_some()
            && replace_imported(module, old()) == 0
            && module.imports.find("mod", "dummy").is_none()
            && has_length(module, old(), 1)
            && replace_imported(module, old()) == 100,
    )
}
