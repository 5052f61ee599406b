//! What is added to a module: many items, or one in each space.
use std::alloc::{AllocError, Global};
use walrus_arena::{FunctionId, GlobalId, MemoryId, TableId, TypeId};
use walrus_builder::FunctionBuilder;
use walrus_forms::{AbstractHeapType, HeapType, RefType, ValType};
use walrus_instr::{ConstExpr, Value};
use walrus_module_items::{DataKind, ElementItems, ElementKind};
use walrus_passes::local_function::LocalFunction;
use walrus_passes::module::Module;

fn add_imports(module: &mut Module, ty: TypeId) -> Result<(), AllocError> {
    module.add_import_func("m", "f", ty)?;
    module.add_import_table("m", "t", false, 1, None, RefType::FUNCREF)?;
    module.add_import_memory("m", "m", false, false, 1, Some(2), None)?;
    module.add_import_global("m", "g", ValType::I32, false, false)?;
    module.add_import_tag("m", "e", ty)?;
    Ok(())
}

// A function that calls the imported one.
fn add_caller(alloc: Global, module: &mut Module) -> Result<FunctionId, AllocError> {
    let mut builder = FunctionBuilder::new(alloc, &mut module.types, &[], &[])?;
    builder.func_body().call(FunctionId::from_index(0))?;
    module
        .funcs
        .add_local(LocalFunction::new(Vec::new(alloc), builder))
}

fn add_locals(module: &mut Module, ty: TypeId) -> Result<(), AllocError> {
    module
        .tables
        .add_local(false, 1, Some(3), RefType::FUNCREF)?;
    module.memories.add_local(false, false, 1, None, None)?;
    module
        .globals
        .add_local(ValType::I32, true, false, ConstExpr::Value(Value::I32(7)))?;
    module.tags.add(ty)?;
    Ok(())
}

// A segment of the imported table with the function, and one of the imported memory at the imported global.
fn add_segments(
    alloc: Global,
    module: &mut Module,
    function: FunctionId,
) -> Result<(), AllocError> {
    let kind = ElementKind::Active {
        table: TableId::from_index(0),
        offset: ConstExpr::Value(Value::I32(0)),
    };
    let held = Vec::from_slice(alloc, &[function])?;
    module.elements.add(kind, ElementItems::Functions(held))?;
    let kind = DataKind::Active {
        memory: MemoryId::from_index(0),
        offset: ConstExpr::Global(GlobalId::from_index(0)),
    };
    module
        .data_segments
        .add(kind, Vec::from_slice(alloc, &[0x2a])?)?;
    Ok(())
}

/// Adds an import and an item of its own in each space, of which the imported function is called and another one exported.
pub(crate) fn add_each(alloc: Global, module: &mut Module) -> Result<(), AllocError> {
    let ty = module.types.add(&[], &[])?;
    add_imports(module, ty)?;
    let function = add_caller(alloc, module)?;
    add_locals(module, ty)?;
    add_segments(alloc, module, function)?;
    module.exports.add("x", function)?;
    Ok(())
}

/// Adds an imported function.
pub(crate) fn add_imported(module: &mut Module) -> Result<(), AllocError> {
    let ty = module.types.add(&[], &[])?;
    module.add_import_func("m", "f", ty)?;
    Ok(())
}

/// Adds an imported table that is exported, and puts the function of this number into its field for an initialiser.
pub(crate) fn add_imported_table(module: &mut Module, number: usize) -> Result<(), AllocError> {
    let (id, _) = module.add_import_table("m", "t", false, 1, None, RefType::FUNCREF)?;
    let function = FunctionId::from_index(number & 0xff);
    if module.tables.contains(id) {
        module.tables.get_mut(id).init = Some(ConstExpr::RefFunc(function));
    }
    module.exports.add("t", id)?;
    Ok(())
}

/// Adds a global that several threads may use.
pub(crate) fn add_shared(module: &mut Module) -> Result<(), AllocError> {
    module
        .globals
        .add_local(ValType::I32, false, true, ConstExpr::Value(Value::I32(7)))?;
    Ok(())
}

/// Adds tables of shared references, the first with null.
pub(crate) fn add_shared_tables(module: &mut Module) -> Result<(), AllocError> {
    let first = RefType {
        nullable: true,
        heap_type: HeapType::Shared(AbstractHeapType::Extern),
    };
    let second = RefType {
        nullable: false,
        heap_type: HeapType::Shared(AbstractHeapType::Any),
    };
    module.tables.add_local(false, 1, None, first)?;
    module.tables.add_local(false, 1, None, second)?;
    Ok(())
}

/// Adds a table of values of just one type.
pub(crate) fn add_exact(module: &mut Module) -> Result<(), AllocError> {
    let ty = module.types.add(&[], &[])?;
    let element = RefType {
        nullable: true,
        heap_type: HeapType::Exact(ty),
    };
    module.tables.add_local(false, 1, None, element)?;
    Ok(())
}

/// Adds so many tables.
pub(crate) fn add_tables(module: &mut Module, count: usize) -> Result<(), AllocError> {
    for _ in 0..count {
        module.tables.add_local(false, 0, None, RefType::FUNCREF)?;
    }
    Ok(())
}

/// Adds a type of functions with so many parameters.
pub(crate) fn add_parameters(
    alloc: Global,
    module: &mut Module,
    count: usize,
) -> Result<(), AllocError> {
    let parameters = vec![in alloc; ValType::I32; count]?;
    module.types.add(parameters.as_slice(), &[])?;
    Ok(())
}

/// Adds a custom section whose name has so many bytes.
pub(crate) fn add_named(
    alloc: Global,
    module: &mut Module,
    count: usize,
) -> Result<(), AllocError> {
    let mut name = String::new(alloc);
    for _ in 0..count {
        name.push('x')?;
    }
    module.customs.add_raw(name.as_str(), &[])?;
    Ok(())
}
