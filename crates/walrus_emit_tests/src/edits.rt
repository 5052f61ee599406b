//! Functions that are edited, and items that are deleted.
use std::alloc::AllocError;
use walrus_arena::{ExportId, FunctionId, ImportId, InstrSeqId, TypeId, UntypedCustomSectionId};
use walrus_builder::FunctionBuilder;
use walrus_instr::{Instr, InstrSeqType};
use walrus_module_items::FunctionKind;
use walrus_passes::module::Module;

/// How a function's body is edited.
#[derive(Clone, Copy)]
pub(crate) enum Edit {
    /// It is put into itself.
    Nest,
    /// It branches to a sequence that isn't around it.
    Stray,
    /// It returns, and calls the first function behind that.
    CallBehind,
}

/// What is deleted.
#[derive(Clone, Copy)]
pub(crate) enum Item {
    Function,
    Export,
    Import,
    Type,
    Section,
}

fn put(builder: &mut FunctionBuilder, edit: Edit) -> Result<(), AllocError> {
    match edit {
        Edit::Nest => builder.func_body().instr(Instr::Block {
            seq: InstrSeqId::from_index(0),
        }),
        Edit::Stray => {
            let away = builder.dangling_instr_seq(InstrSeqType::Simple(None))?;
            builder.func_body().br(away)
        }
        Edit::CallBehind => {
            builder.func_body().return_()?;
            builder.func_body().call(FunctionId::from_index(0))
        }
    }
}

/// Edits the body of the function of this number.
pub(crate) fn edit_body(module: &mut Module, number: usize, edit: Edit) -> Result<(), AllocError> {
    let id = FunctionId::from_index(number & 0xff);
    if !module.funcs.contains(id) {
        return Ok(());
    }
    match &mut module.funcs.get_mut(id).kind {
        FunctionKind::Local(local) => put(local.builder_mut(), edit),
        FunctionKind::Import(_) | FunctionKind::Uninitialized(_) => Ok(()),
    }
}

/// Takes away the body of the function of this number.
pub(crate) fn uninitialize(module: &mut Module, number: usize) {
    let id = FunctionId::from_index(number & 0xff);
    if module.funcs.contains(id) {
        let ty = module.funcs.get(id).ty();
        module.funcs.get_mut(id).kind = FunctionKind::Uninitialized(ty);
    }
}

/// Deletes the item of this number, where there is one.
pub(crate) fn delete(module: &mut Module, number: usize, item: Item) {
    let number = number & 0xff;
    let function = FunctionId::from_index(number);
    let export = ExportId::from_index(number);
    let import = ImportId::from_index(number);
    let ty = TypeId::from_index(number);
    match item {
        Item::Function if module.funcs.contains(function) => module.funcs.delete(function),
        Item::Export if module.exports.contains(export) => module.exports.delete(export),
        Item::Import if module.imports.contains(import) => module.imports.delete(import),
        Item::Type if module.types.contains(ty) => module.types.delete(ty),
        Item::Section => {
            let _ = module
                .customs
                .delete(UntypedCustomSectionId::from_index(number));
        }
        _ => {}
    }
}
