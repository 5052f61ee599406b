//! The imports of a module.
ghost use Rattle.std.specs.Prelude.{◌≡◌, ◌+◌, ◌<◌, ◌≤◌, ◌&&◌, [], ◌∷◌, ◌++◌, IfOk, OnOk, OnErr, Some, option_copied, string_bytes};
ghost use Rattle.std.specs.Option.{option_map, option_and_then};
ghost use Rattle.walrus_arena.specs.Arena.{next_id, lowest_id};
ghost use Rattle.walrus_module_items.specs.declared.import.ImportKind.TheVariants as kinds;
ghost use Rattle.walrus_collections.specs.Added.{Adds, IsImport};
ghost use Rattle.walrus_collections.specs.Answers.{found, Removes};
ghost use Rattle.walrus_collections.specs.LookUps.{lowest};
ghost use Rattle.walrus_collections.specs.Tests.{imported_function, import_named, function_import_named, imports, same_kind};

use crate::collection::{Collection, Test};
use std::alloc::AllocError;
use walrus_arena::{FunctionId, ImportId, ImportSpace};
use walrus_errors::{ModuleError, Result as ModuleResult};
use walrus_module_items::{Import, ImportKind};

/// The imports of a module.
pub type ModuleImports = Collection<Import, ImportSpace>;

// Imports of these names.
#[derive(Clone, Copy)]
struct Named<'m, 'n> {
    module: &'m str,
    name: &'n str,
}

impl<'m, 'n> Test<Import> for Named<'m, 'n> {
    ghost passes = { λ t i. import_named t.«module».now t.name.now i };

    fn passes(&self, item: &Import) -> bool {
        item.module.as_str() == self.module && item.name.as_str() == self.name
    }
}

// Imports of functions of these names.
#[derive(Clone, Copy)]
struct FunctionNamed<'m, 'n> {
    module: &'m str,
    name: &'n str,
}

impl<'m, 'n> Test<Import> for FunctionNamed<'m, 'n> {
    ghost passes = { λ t i. function_import_named t.«module».now t.name.now i };

    fn passes(&self, item: &Import) -> bool {
        item.module.as_str() == self.module
            && item.name.as_str() == self.name
            && matches!(item.kind, ImportKind::Function(_))
    }
}

/// Imports that bring this.
#[derive(Clone, Copy)]
pub struct ImportOf(pub ImportKind);

impl Test<Import> for ImportOf {
    ghost passes = { λ t i. imports t.0 i };

    fn passes(&self, item: &Import) -> bool {
        item.kind == self.0
    }
}

impl Collection<Import, ImportSpace> {
    /// Adds an import of these names, and gives its id. The item is to name the import, too.
    ///
    /// # Errors
    ///
    /// Want of memory. The imports stay as they were.
    pub fn add<K: Into<ImportKind>>(
        &mut self,
        module: &str,
        name: &str,
        kind: K,
    ) -> Result<ImportId, AllocError>
        ensures id { IfOk result (λ id. id ≡ next_id self.old) }
        ensures added { OnOk result ((k : _) × K.converts kind k × Adds (IsImport (next_id self.old) «module».now name.now k) self.old self.new) }
        ensures room { self.old.room ≤ self.new.room + 1 }
        ensures refused { OnErr result (self.new ≡ self.old) }
    {
        let kind = kind.into();
        let module = self.text(module)?;
        let name = self.text(name)?;
        self.reserve(1)?;
        Ok(self.add_reserved(module, name, kind))
    }

    /// A text in the memory of these imports.
    ///
    /// # Errors
    ///
    /// Want of memory.
    pub fn text(&self, text: &str) -> Result<String, AllocError>
        ensures { IfOk result (λ copy. string_bytes copy ≡ text.now) }
    {
        String::from_str(self.alloc(), text)
    }

    /// Adds an import, for which there is room, and gives its id. Takes no memory.
    pub fn add_reserved(&mut self, module: String, name: String, kind: ImportKind) -> ImportId
        requires { 0 < self.old.room }
        ensures id { result ≡ next_id self.old }
        ensures added { self.new.slots ≡ self.old.slots ++ Some (record { id = result; «module» = «module»; name = name; kind = kind }) ∷ [] }
        ensures room { self.new.room + 1 ≡ self.old.room }
    {
        let id = self.next_id();
        self.push_reserved(Import::new(id, module, name, kind))
    }

    /// The lowest import of these names. Goes through the imports.
    pub fn find(&self, module: &str, name: &str) -> Option<ImportId>
        ensures { result ≡ lowest_id (import_named «module».now name.now) self.now }
    {
        self.lowest_id(&Named { module, name })
    }

    /// The function of the lowest import of a function of these names. Goes through the imports.
    ///
    /// # Errors
    ///
    /// `NotFound` where there is none.
    pub fn get_func(&self, module: &str, name: &str) -> ModuleResult<FunctionId>
        ensures { result ≡ found (option_and_then (λ e. imported_function e.1.kind) (lowest (function_import_named «module».now name.now) self.now)) }
    {
        match self.lowest(&FunctionNamed { module, name }) {
            Some((_, import)) => match import.kind {
                ImportKind::Function(id) => Ok(id),
                _ => Err(ModuleError::NotFound),
            },
            None => Err(ModuleError::NotFound),
        }
    }

    /// The lowest import of a function. Goes through the imports.
    pub fn get_imported_func(&self, function: FunctionId) -> Option<&Import>
        ensures { option_copied result ≡ option_map (λ e. e.1) (lowest (imports (kinds.Function function)) self.now) }
    {
        match self.lowest(&ImportOf(ImportKind::Function(function))) {
            Some((_, import)) => Some(import),
            None => None,
        }
    }

    /// Deletes the lowest import of these names, of whatever kind. Its item stays. Goes through the imports.
    ///
    /// # Errors
    ///
    /// `NotFound` where there is none.
    pub fn remove(&mut self, module: &str, name: &str) -> ModuleResult<()>
        ensures { Removes (import_named «module».now name.now) self.old result self.new }
    {
        match self.lowest_id(&Named { module, name }) {
            Some(id) => {
                self.delete(id);
                Ok(())
            }
            None => Err(ModuleError::NotFound),
        }
    }
}
