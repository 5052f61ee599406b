//! A module of imported items and of its own in each space, of which the imported ones are used.
use crate::modules::{Step, leave, live, live_types};
use std::alloc::{AllocError, Global};
use walrus_arena::{FunctionId, GlobalId, MemoryId, TableId, TypeId};
use walrus_builder::FunctionBuilder;
use walrus_forms::{RefType, ValType};
use walrus_instr::{ConstExpr, Value};
use walrus_module::Module;
use walrus_module::local_function::LocalFunction;
use walrus_module_items::{DataKind, ElementItems, ElementKind};

// An import in each space, of which the function and the tag have this type.
fn add_imports(module: &mut Module, ty: TypeId) -> Result<(), AllocError> {
    module.add_import_func("m", "f", ty)?;
    module.add_import_table("m", "t", false, 1, None, RefType::FUNCREF)?;
    module.add_import_memory("m", "m", false, false, 1, Some(2), None)?;
    module.add_import_global("m", "g", ValType::I32, false, false)?;
    module.add_import_tag("m", "e", ty)?;
    Ok(())
}

// A function that calls the imported one.
fn add_caller(alloc: Global, module: &mut Module) -> Result<FunctionId, AllocError> {
    let mut builder = FunctionBuilder::new(alloc, &mut module.types, &[], &[])?;
    builder.func_body().call(FunctionId::from_index(0))?;
    module
        .funcs
        .add_local(LocalFunction::new(Vec::new(alloc), builder))
}

// An item of its own in each other space.
fn add_own(module: &mut Module, ty: TypeId) -> Result<(), AllocError> {
    let init = Some(ConstExpr::RefFunc(FunctionId::from_index(0)));
    module
        .tables
        .add_local_with_init(false, 1, Some(3), RefType::FUNCREF, init)?;
    module.memories.add_local(false, false, 1, None, None)?;
    module
        .globals
        .add_local(ValType::I32, true, false, ConstExpr::Value(Value::I32(7)))?;
    module.tags.add(ty)?;
    Ok(())
}

// A segment of the imported table with the function, and one of the imported memory at the imported global.
fn add_segments(
    alloc: Global,
    module: &mut Module,
    function: FunctionId,
) -> Result<(), AllocError> {
    let kind = ElementKind::Active {
        table: TableId::from_index(0),
        offset: ConstExpr::Value(Value::I32(0)),
    };
    let held = Vec::from_slice(alloc, &[function])?;
    module.elements.add(kind, ElementItems::Functions(held))?;
    let kind = DataKind::Active {
        memory: MemoryId::from_index(0),
        offset: ConstExpr::Global(GlobalId::from_index(0)),
    };
    module
        .data_segments
        .add(kind, Vec::from_slice(alloc, &[0x2a])?)?;
    Ok(())
}

/// Adds all of these.
pub(crate) fn fill(alloc: Global, module: &mut Module) -> Result<(), AllocError> {
    let ty = module.types.add(&[], &[])?;
    add_imports(module, ty)?;
    let function = add_caller(alloc, module)?;
    add_own(module, ty)?;
    add_segments(alloc, module, function)?;
    module.exports.add("x", function)?;
    Ok(())
}

// Whether so many types, functions, tables, memories, globals, tags, elements, data segments and imports live.
fn has(module: &Module, counts: [usize; 9]) -> bool {
    [
        live_types(module),
        live(&module.funcs),
        live(&module.tables),
        live(&module.memories),
        live(&module.globals),
        live(&module.tags),
        live(&module.elements),
        live(&module.data_segments),
        live(&module.imports),
    ] == counts
}

/// Whether all of them live.
pub(crate) fn are_all_live(module: &Module) -> bool {
    has(module, [1, 2, 2, 2, 2, 2, 1, 1, 5])
}

/// Whether those alone live that are used.
pub(crate) fn are_used_live(module: &Module) -> bool {
    has(module, [1, 2, 1, 1, 1, 0, 1, 1, 4])
        && module.tables.main_function_table() == Ok(Some(TableId::from_index(0)))
}

// A second gc deletes nothing.
const STEPS: [Step; 7] = [
    Step::EachSpace,
    Step::AllLive,
    Step::Copied,
    Step::Gc(0),
    Step::UsedLive,
    Step::Gc(0),
    Step::UsedLive,
];

// The imported tag goes, and all that the module has of its own but for the function and the segments.
#[test]
fn imported_items_are_used(rt: HostRuntime) {
    assert!(rt; matches!(leave(rt.alloc(), &STEPS, [1, 2, 1, 1, 4]), Ok(true)));
}
