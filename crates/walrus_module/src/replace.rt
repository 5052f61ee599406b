//! Putting a function in the place of an exported or an imported one.
ghost use Rattle.std.specs.Prelude.{◌≡◌, ◌↔◌, IsTrue, Err, None, Some, IsSome, IfSome, IfOk, IfErr, OnErr};
ghost use Rattle.walrus_arena.specs.Arena.{IsLive, item_at, with_item};
ghost use Rattle.walrus_collections.specs.walrus_module_items.declared.export.Export.{Export};
ghost use Rattle.walrus_collections.specs.walrus_module_items.declared.function.FunctionKind.TheVariants as functions;
ghost use Rattle.walrus_errors.specs.declared.error.ModuleError.TheVariants.{NotFound, WrongKind, Memory};
ghost use Rattle.walrus_module.specs.Parts.{parts};
ghost use Rattle.walrus_module.specs.Replaced.{IsTyped, export_of, import_of, body_at, imported_at, MayAddTypesOf, MayAddArguments, IsExportReplaced, IsImportReplaced};

use crate::build::{add_arguments_of, build_like};
use crate::module::Module;
use std::alloc::AllocError;
use walrus_arena::{ExportId, FunctionId, LocalId};
use walrus_builder::InstrSeqBuilder;
use walrus_collections::local_function::LocalFunction;
use walrus_collections::module_items::{ExportItem, FunctionKind, ImportKind};
use walrus_collections::{ExportOf, ImportOf, ModuleExports, ModuleFunctions};
use walrus_errors::{ModuleError, Result};

// Gives a live function this body.
fn give_body(funcs: &mut ModuleFunctions, function: FunctionId, local: LocalFunction)
    requires { IsLive funcs.old function }
    ensures { IfSome (item_at funcs.old function) (λ item. funcs.new ≡ with_item funcs.old function (record item { kind = functions.Local local })) }
{
    funcs.get_mut(function).kind = FunctionKind::Local(local);
}

// Lets a live export give out this.
fn give_export(exports: &mut ModuleExports, export: ExportId, item: ExportItem)
    requires { IsLive exports.old export }
    ensures { (e : Export) × (item_at exports.old export ≡ Some e) × (exports.new ≡ with_item exports.old export (record e { item = item })) }
{
    exports.get_mut(export).item = item;
}

impl<B> Module<B> {
    /// Whether the function is live, and its type a live function type.
    pub fn has_live_type(&self, function: FunctionId) -> bool
        ensures { IsTrue result ↔ IsTyped self.now.funcs self.now.types function }
    {
        if !self.funcs.contains(function) {
            return false;
        }
        let ty = self.funcs.get(function).ty();
        self.types.contains(ty) && self.types.get(ty).is_function()
    }

    /// Puts a new function in the place of an exported one: of the same parameters and results and with the same
    /// arguments, whose body the closure fills, which gets these arguments. Its type is the one that a new function of
    /// these gets, which may be another where the old one is open or has a supertype. The lowest export of the old
    /// function names the new one, and all else that names the old one still does. Asks that an exported function is live, and its type a live
    /// function type. Goes through the exports.
    ///
    /// # Errors
    ///
    /// `NotFound` where no export names the function, `WrongKind` where it has no body, and `Memory` for want of
    /// memory, or where the closure answers so: then types may have been added.
    pub fn replace_exported_func<
        F: FnOnce(&mut InstrSeqBuilder, &[LocalId]) -> Result<(), AllocError> + Drop,
    >(&mut self, function: FunctionId, build: F) -> Result<FunctionId>
        requires callable { F.IsAlwaysCallable build }
        requires typed { IsSome (export_of self.old.exports function) → IsTyped self.old.funcs self.old.types function }
        ensures missing { export_of self.old.exports function ≡ None → (result ≡ Err NotFound) × (self.new ≡ self.old) }
        ensures wrong { IsSome (export_of self.old.exports function) → body_at self.old.funcs function ≡ None → (result ≡ Err WrongKind) × (self.new ≡ self.old) }
        ensures cause { IsSome (export_of self.old.exports function) → IsSome (body_at self.old.funcs function) → IfErr result (λ e. e ≡ Memory) }
        ensures replaced { IfOk result (λ id. IsExportReplaced F.FnOnce build function id (parts self.old) (parts self.new)) }
        ensures customs { self.new.customs ≡ self.old.customs }
        ensures left { OnErr result (self.new ≡ record self.old { types = self.new.types }) }
        ensures left_types { OnErr result (MayAddTypesOf self.old.funcs function self.old.types self.new.types) }
    {
        let found = self
            .exports
            .lowest_id(&ExportOf(ExportItem::Function(function)));
        let Some(export) = found else {
            return Err(ModuleError::NotFound);
        };
        let FunctionKind::Local(old) = &self.funcs.get(function).kind else {
            return Err(ModuleError::WrongKind);
        };
        let args = old.args.clone()?;
        let ty = old.ty();
        let local = build_like(self.alloc, &mut self.types, ty, args, build)?;
        let new = self.funcs.add_local(local)?;
        give_export(&mut self.exports, export, ExportItem::Function(new));
        Ok(new)
    }

    /// Gives an imported function a body, which the closure fills: it gets the function's arguments, new locals, one
    /// for each parameter. The function keeps its id and its name, and its lowest import is deleted. Asks that an
    /// imported function is live, and its type a live function type. Goes through the imports. Answers the
    /// function's id.
    ///
    /// # Errors
    ///
    /// `NotFound` where no import names the function, `WrongKind` where it isn't imported, and `Memory` for want of
    /// memory, or where the closure answers so: then types and arguments may have been added.
    pub fn replace_imported_func<
        F: FnOnce(&mut InstrSeqBuilder, &[LocalId]) -> Result<(), AllocError> + Drop,
    >(&mut self, function: FunctionId, build: F) -> Result<FunctionId>
        requires callable { F.IsAlwaysCallable build }
        requires typed { IsSome (import_of self.old.imports function) → IsTyped self.old.funcs self.old.types function }
        ensures missing { import_of self.old.imports function ≡ None → (result ≡ Err NotFound) × (self.new ≡ self.old) }
        ensures wrong { IsSome (import_of self.old.imports function) → imported_at self.old.funcs function ≡ None → (result ≡ Err WrongKind) × (self.new ≡ self.old) }
        ensures cause { IsSome (import_of self.old.imports function) → IsSome (imported_at self.old.funcs function) → IfErr result (λ e. e ≡ Memory) }
        ensures same { IfOk result (λ id. id ≡ function) }
        ensures replaced { IfOk result (λ _. IsImportReplaced F.FnOnce build function (parts self.old) (parts self.new)) }
        ensures customs { self.new.customs ≡ self.old.customs }
        ensures left { OnErr result (self.new ≡ record self.old { types = self.new.types; locals = self.new.locals }) }
        ensures left_types { OnErr result (MayAddTypesOf self.old.funcs function self.old.types self.new.types) }
        ensures left_locals { OnErr result (MayAddArguments self.old.funcs function self.old.types self.old.locals self.new.locals) }
    {
        let found = self
            .imports
            .lowest_id(&ImportOf(ImportKind::Function(function)));
        let Some(import) = found else {
            return Err(ModuleError::NotFound);
        };
        let FunctionKind::Import(old) = &self.funcs.get(function).kind else {
            return Err(ModuleError::WrongKind);
        };
        let ty = old.ty;
        let args = add_arguments_of(self.alloc, &mut self.locals, &self.types, ty)?;
        let local = build_like(self.alloc, &mut self.types, ty, args, build)?;
        give_body(&mut self.funcs, function, local);
        self.imports.delete(import);
        Ok(function)
    }
}
