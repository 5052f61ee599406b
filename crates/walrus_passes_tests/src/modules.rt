//! Small modules, made by steps, and how many items they have.
use crate::copies::are_copied;
use crate::imports::{are_all_live, are_used_live, fill};
use crate::own::{keep, refuse};
use crate::replaced::{exports_are_replaced, import_is_replaced};
use std::alloc::{AllocError, Global};
use walrus_arena::{
    DataId, ExportId, FunctionId, GlobalId, Id, ImportId, InstrSeqId, LocalId, MemoryId, TableId,
    TypeId, UntypedCustomSectionId,
};
use walrus_builder::FunctionBuilder;
use walrus_config::ModuleConfig;
use walrus_errors::{Form, ModuleError, Space};
use walrus_forms::{FieldType, HeapType, RefType, StorageType, ValType};
use walrus_instr::{ConstExpr, Instr, InstrSeqType, Value};
use walrus_module::Module;
use walrus_module::collections::Collection;
use walrus_module::local_function::LocalFunction;
use walrus_module_items::{DataKind, ElementItems, ElementKind, FunctionKind};
use walrus_passes::{Used, gc};
use walrus_sections::SectionFault;

/// A step by which a module is made or changed. Numbers are those of ids.
#[derive(Clone, Copy)]
pub(crate) enum Step {
    /// A function with an empty body; the first one adds its type, 0.
    Function,
    /// An imported function of the type 0, with its import.
    ImportedFunction,
    /// An import that says that it brings the function.
    ImportOf(usize),
    ExportFunction(usize),
    /// A table of 32 bits and the size 1, for function references.
    Table,
    ExportTable(usize),
    /// An imported table, in whose field for an initialiser stands the function of this number.
    ImportedTable(usize),
    /// A type of structures of one reference to the type of this number, whether that is there or not.
    Struct(usize),
    /// A table of references to the type, or to values of just this type.
    TypedTable { ty: usize, exact: bool },
    /// A global that several threads may use.
    SharedGlobal,
    ExportGlobal(usize),
    /// An active segment of the table, with the function.
    Segment { table: usize, function: usize },
    /// A declared segment with the function.
    Declared(usize),
    /// A memory of one page.
    Memory,
    ExportMemory(usize),
    /// A passive data segment without bytes.
    Data,
    /// A local, of references to the type of this number.
    Local(usize),
    /// The function is called at instantiation.
    Start(usize),
    /// The segment is dropped by the function.
    Drops { data: usize, function: usize },
    /// The local is read by the function.
    Reads { local: usize, function: usize },
    /// The first function is called by the second.
    Call { callee: usize, caller: usize },
    Return(usize),
    /// The body is put into itself.
    Nest(usize),
    /// A branch to a sequence that isn't around it.
    Stray(usize),
    Uninitialize(usize),
    DeleteFunction(usize),
    DeleteExport(usize),
    DeleteImport(usize),
    DeleteType(usize),
    DeleteMemory(usize),
    /// A section that keeps the function, one that refuses, and one that has no memory to say what it keeps.
    Keep(usize),
    Refuse,
    Short,
    DeleteSection(usize),
    /// The function is to live.
    Lives(usize),
    /// The memory is to live, or not.
    HasMemory(usize),
    NoMemory(usize),
    /// The function is to be used, or not.
    Used(usize),
    Unused(usize),
    /// Imported items and own ones in each space. All of them are to live, or those alone that are used.
    EachSpace,
    AllLive,
    UsedLive,
    /// Each of them is to be copied.
    Copied,
    /// Functions are put in the place of exported ones, and of an imported one, of a new module.
    ExportsReplaced,
    ImportReplaced,
    /// A gc, and what is used before it, which both answer this: 0 for `Ok`, 1 for `NotLinked`, 2 for `NoTree`, 3 for a dead function, 4 for a dead type,
    /// 5 for a shared global, 6 for an exact type, 7 for a section that refuses, 8 for want of memory.
    Gc(usize),
}

fn add_function(alloc: Global, module: &mut Module) -> Result<(), AllocError> {
    let builder = FunctionBuilder::new(alloc, &mut module.types, &[], &[])?;
    module
        .funcs
        .add_local(LocalFunction::new(Vec::new(alloc), builder))?;
    Ok(())
}

fn add_imported(module: &mut Module) -> Result<(), AllocError> {
    let ty = module.types.add(&[], &[])?;
    module.add_import_func("m", "f", ty)?;
    Ok(())
}

fn add_imported_table(module: &mut Module, index: usize) -> Result<(), AllocError> {
    let (id, _) = module.add_import_table("m", "t", false, 1, None, RefType::FUNCREF)?;
    if module.tables.contains(id) {
        module.tables.get_mut(id).init = Some(ConstExpr::RefFunc(function(index)));
    }
    Ok(())
}

fn add_segment(
    alloc: Global,
    module: &mut Module,
    kind: ElementKind,
    function: usize,
) -> Result<(), AllocError> {
    let mut functions: Vec<FunctionId> = Vec::new(alloc);
    functions.push(Id::from_index(function & 0xff))?;
    module
        .elements
        .add(kind, ElementItems::Functions(functions))?;
    Ok(())
}

fn active(table: usize) -> ElementKind {
    ElementKind::Active {
        table: TableId::from_index(table & 0xff),
        offset: ConstExpr::Value(Value::I32(0)),
    }
}

fn read(builder: &mut FunctionBuilder, local: LocalId) -> Result<(), AllocError> {
    let mut body = builder.func_body();
    body.local_get(local)?;
    body.drop()
}

// Puts an instruction at the end of a body.
fn put(builder: &mut FunctionBuilder, step: Step) -> Result<(), AllocError> {
    match step {
        Step::Call { callee, .. } => builder
            .func_body()
            .call(FunctionId::from_index(callee & 0xff)),
        Step::Return(_) => builder.func_body().return_(),
        Step::Drops { data, .. } => builder
            .func_body()
            .data_drop(DataId::from_index(data & 0xff)),
        Step::Reads { local, .. } => read(builder, LocalId::from_index(local & 0xff)),
        Step::Nest(_) => builder.func_body().instr(Instr::Block {
            seq: InstrSeqId::from_index(0),
        }),
        Step::Stray(_) => {
            let away = builder.dangling_instr_seq(InstrSeqType::Simple(None))?;
            builder.func_body().br(away)
        }
        _ => Ok(()),
    }
}

fn put_in(module: &mut Module, function: usize, step: Step) -> Result<(), AllocError> {
    let id = FunctionId::from_index(function & 0xff);
    if !module.funcs.contains(id) {
        return Ok(());
    }
    match &mut module.funcs.get_mut(id).kind {
        FunctionKind::Local(local) => put(local.builder_mut(), step),
        FunctionKind::Import(_) | FunctionKind::Uninitialized(_) => Ok(()),
    }
}

fn uninitialize(module: &mut Module, function: usize) {
    let id = FunctionId::from_index(function & 0xff);
    if module.funcs.contains(id) {
        let ty = module.funcs.get(id).ty();
        module.funcs.get_mut(id).kind = FunctionKind::Uninitialized(ty);
    }
}

fn delete(module: &mut Module, step: Step) {
    match step {
        Step::DeleteFunction(index) => {
            let id = FunctionId::from_index(index & 0xff);
            if module.funcs.contains(id) {
                module.funcs.delete(id);
            }
        }
        Step::DeleteExport(index) => {
            let id = ExportId::from_index(index & 0xff);
            if module.exports.contains(id) {
                module.exports.delete(id);
            }
        }
        Step::DeleteImport(index) => {
            let id = ImportId::from_index(index & 0xff);
            if module.imports.contains(id) {
                module.imports.delete(id);
            }
        }
        Step::DeleteSection(index) => {
            let _ = module
                .customs
                .delete(UntypedCustomSectionId::from_index(index & 0xff));
        }
        Step::DeleteType(index) => {
            let id = TypeId::from_index(index & 0xff);
            if module.types.contains(id) {
                module.types.delete(id);
            }
        }
        Step::DeleteMemory(index) => {
            let id = memory(index);
            if module.memories.contains(id) {
                module.memories.delete(id);
            }
        }
        _ => {}
    }
}

// The number of what a gc answered.
fn answer(refusal: Option<ModuleError>) -> usize {
    match refusal {
        None => 0,
        Some(ModuleError::NotLinked) => 1,
        Some(ModuleError::NoTree) => 2,
        Some(
            ModuleError::DeadReference {
                space: Space::Function,
            },
        ) => 3,
        Some(ModuleError::DeadReference { space: Space::Type }) => 4,
        Some(
            ModuleError::Unsupported {
                form: Form::SharedGlobal,
                ..
            },
        ) => 5,
        Some(
            ModuleError::Unsupported {
                form: Form::ExactType,
                ..
            },
        ) => 6,
        Some(ModuleError::SectionRefused) => 7,
        Some(ModuleError::Memory) => 8,
        Some(_) => 9,
    }
}

// Whether `Used::new` and then a gc answer what this number says.
fn answers(alloc: Global, module: &mut Module, wanted: usize) -> bool {
    answer(Used::new(alloc, module).err()) == wanted
        && answer(gc::run(alloc, module).err()) == wanted
}

// Whether the function is used.
fn uses(alloc: Global, module: &Module, function: FunctionId) -> bool {
    match Used::new(alloc, module) {
        Ok(used) => used.funcs.contains(&function),
        Err(_) => false,
    }
}

fn function(index: usize) -> FunctionId {
    FunctionId::from_index(index & 0xff)
}

fn memory(index: usize) -> MemoryId {
    MemoryId::from_index(index & 0xff)
}

fn heap_type(ty: usize, exact: bool) -> HeapType {
    let id = TypeId::from_index(ty & 0xff);
    if exact {
        HeapType::Exact(id)
    } else {
        HeapType::Concrete(id)
    }
}

fn nullable(ty: usize, exact: bool) -> RefType {
    RefType {
        nullable: true,
        heap_type: heap_type(ty, exact),
    }
}

fn add_struct(alloc: Global, module: &mut Module, ty: usize) -> Result<(), AllocError> {
    let field = FieldType {
        element_type: StorageType::Val(ValType::Ref(nullable(ty, false))),
        mutable: false,
    };
    module.types.add_struct(Vec::from_slice(alloc, &[field])?)?;
    Ok(())
}

fn add_shared(module: &mut Module) -> Result<(), AllocError> {
    module
        .globals
        .add_local(ValType::I32, false, true, ConstExpr::Value(Value::I32(0)))?;
    Ok(())
}

fn add_memory(module: &mut Module) -> Result<(), AllocError> {
    module.memories.add_local(false, false, 1, None, None)?;
    Ok(())
}

fn add_data(alloc: Global, module: &mut Module) -> Result<(), AllocError> {
    module
        .data_segments
        .add(DataKind::Passive, Vec::new(alloc))?;
    Ok(())
}

fn add_local(module: &mut Module, ty: usize) -> Result<(), AllocError> {
    module.locals.add(ValType::Ref(nullable(ty, false)))?;
    Ok(())
}

fn add(alloc: Global, module: &mut Module, step: Step) -> Result<(), AllocError> {
    match step {
        Step::Function => add_function(alloc, module),
        Step::ImportedFunction => add_imported(module),
        Step::Table => {
            module.tables.add_local(false, 1, None, RefType::FUNCREF)?;
            Ok(())
        }
        Step::ImportedTable(index) => add_imported_table(module, index),
        Step::TypedTable { ty, exact } => {
            module
                .tables
                .add_local(false, 1, None, nullable(ty, exact))?;
            Ok(())
        }
        Step::Struct(ty) => add_struct(alloc, module, ty),
        Step::SharedGlobal => add_shared(module),
        Step::Memory => add_memory(module),
        Step::Data => add_data(alloc, module),
        Step::Local(ty) => add_local(module, ty),
        Step::Keep(index) => {
            keep(alloc, &mut module.customs, function(index))?;
            Ok(())
        }
        Step::Refuse => {
            refuse(alloc, &mut module.customs, SectionFault::Refused)?;
            Ok(())
        }
        Step::Short => {
            refuse(alloc, &mut module.customs, SectionFault::Memory)?;
            Ok(())
        }
        Step::Segment { table, function } => add_segment(alloc, module, active(table), function),
        Step::Declared(function) => add_segment(alloc, module, ElementKind::Declared, function),
        _ => Ok(()),
    }
}

fn name(module: &mut Module, step: Step) -> Result<(), AllocError> {
    match step {
        Step::ImportOf(index) => {
            let id = FunctionId::from_index(index & 0xff);
            module.imports.add("mod", "dummy", id)?;
        }
        Step::ExportFunction(index) => {
            let id = FunctionId::from_index(index & 0xff);
            module.exports.add("f", id)?;
        }
        Step::ExportTable(index) => {
            let id = TableId::from_index(index & 0xff);
            module.exports.add("t", id)?;
        }
        Step::ExportGlobal(index) => {
            let id = GlobalId::from_index(index & 0xff);
            module.exports.add("g", id)?;
        }
        Step::ExportMemory(index) => {
            module.exports.add("m", memory(index))?;
        }
        _ => {}
    }
    Ok(())
}

// Takes a step; whether a gc answers what it is to answer.
fn take(alloc: Global, module: &mut Module, step: Step) -> Result<bool, AllocError> {
    match step {
        Step::Gc(wanted) => return Ok(answers(alloc, module, wanted)),
        Step::Lives(index) => return Ok(module.funcs.contains(function(index))),
        Step::HasMemory(index) => return Ok(module.memories.contains(memory(index))),
        Step::NoMemory(index) => return Ok(!module.memories.contains(memory(index))),
        Step::Used(index) => return Ok(uses(alloc, module, function(index))),
        Step::Unused(index) => return Ok(!uses(alloc, module, function(index))),
        Step::AllLive => return Ok(are_all_live(module)),
        Step::Copied => return are_copied(module),
        Step::ExportsReplaced => return exports_are_replaced(alloc, module),
        Step::ImportReplaced => return import_is_replaced(module),
        Step::UsedLive => return Ok(are_used_live(module)),
        Step::EachSpace => fill(alloc, module)?,
        Step::Uninitialize(function) => uninitialize(module, function),
        Step::Start(index) => module.start = Some(function(index)),
        Step::Call { caller, .. } => put_in(module, caller, step)?,
        Step::Return(function)
        | Step::Nest(function)
        | Step::Stray(function)
        | Step::Drops { function, .. }
        | Step::Reads { function, .. } => put_in(module, function, step)?,
        Step::DeleteFunction(_)
        | Step::DeleteExport(_)
        | Step::DeleteImport(_)
        | Step::DeleteSection(_)
        | Step::DeleteType(_)
        | Step::DeleteMemory(_) => delete(module, step),
        Step::ImportOf(_)
        | Step::ExportFunction(_)
        | Step::ExportTable(_)
        | Step::ExportGlobal(_)
        | Step::ExportMemory(_) => name(module, step)?,
        _ => add(alloc, module, step)?,
    }
    Ok(true)
}

/// How many items live.
pub(crate) fn live<T, S>(items: &Collection<T, S>) -> usize {
    let mut count: usize = 0;
    for index in 0..items.next_id().index() {
        if items.contains(Id::from_index(index)) {
            count = count.saturating_add(1);
        }
    }
    count
}

/// How many types live that are no entry types.
pub(crate) fn live_types(module: &Module) -> usize {
    let mut count: usize = 0;
    for ty in module.types.iter() {
        if !ty.is_entry() {
            count = count.saturating_add(1);
        }
    }
    count
}

// Whether so many types, functions, tables, elements and imports live.
fn has(module: &Module, counts: [usize; 5]) -> bool {
    [
        live_types(module),
        live(&module.funcs),
        live(&module.tables),
        live(&module.elements),
        live(&module.imports),
    ] == counts
}

fn are_taken(
    alloc: Global,
    module: &mut Module,
    steps: &[Step],
    counts: [usize; 5],
) -> Result<bool, AllocError> {
    for step in steps {
        if !take(alloc, module, *step)? {
            return Ok(false);
        }
    }
    Ok(has(module, counts))
}

/// Whether each gc among these steps answers what it is to, and they leave so many types, functions, tables, elements
/// and imports.
pub(crate) fn leave(alloc: Global, steps: &[Step], counts: [usize; 5]) -> Result<bool, AllocError> {
    leave_with(alloc, ModuleConfig::new(), steps, counts)
}

/// The same of a module with these flags.
pub(crate) fn leave_with(
    alloc: Global,
    config: ModuleConfig,
    steps: &[Step],
    counts: [usize; 5],
) -> Result<bool, AllocError> {
    let mut module = Module::with_config(alloc, config);
    are_taken(alloc, &mut module, steps, counts)
}
