//! The functions of a module.
ghost use Rattle.std.specs.Prelude.{◌≡◌, ◌<◌, ◌+◌, ◌≤◌, [], ◌∷◌, ◌++◌, IfOk, OnOk, OnErr, None, Some, IsOk};
ghost use Rattle.std.specs.Iterator.{YieldsFirstBy, item_count};
ghost use Rattle.walrus_arena.specs.Arena.{next_id, lowest_id, entries};
ghost use Rattle.walrus_module_items.specs.declared.function.FunctionKind.TheVariants as kinds;
ghost use Rattle.walrus_collections.specs.Added.{Adds, IsLocal};
ghost use Rattle.walrus_collections.specs.LookUps.{local_entries};
ghost use Rattle.walrus_collections.specs.Tests.{function_named};

use crate::collection::{Collection, Test};
use std::alloc::AllocError;
use std::marker::Model;
use walrus_arena::{FunctionId, FunctionSpace, ImportId, Iter, TypeId};
use walrus_module_items::local_function::LocalFunction;
use walrus_module_items::{Function, FunctionKind, ImportedFunction};

/// The functions of a module.
pub type ModuleFunctions = Collection<Function, FunctionSpace>;

// Functions of this name.
#[derive(Clone, Copy)]
struct Named<'a>(&'a str);

impl<'a> Test<Function> for Named<'a> {
    ghost passes = { λ t f. function_named t.0.now f };

    fn passes(&self, item: &Function) -> bool {
        match &item.name {
            Some(text) => text.as_str() == self.0,
            None => false,
        }
    }
}

impl Collection<Function, FunctionSpace> {
    /// Adds a function that this import brings, and gives its id. The import is to name the function, too.
    ///
    /// # Errors
    ///
    /// Want of memory. The functions stay as they were.
    pub fn add_import(&mut self, ty: TypeId, import: ImportId) -> Result<FunctionId, AllocError>
        ensures id { IfOk result (λ id. id ≡ next_id self.old) }
        ensures added { IfOk result (λ id. self.new.slots ≡ self.old.slots ++ Some (record { id = id; kind = kinds.Import (record { import = import; ty = ty }); name = None }) ∷ []) }
        ensures room { self.old.room ≤ self.new.room + 1 }
        ensures succeeds { 0 < self.old.room → IsOk result }
        ensures refused { OnErr result (self.new ≡ self.old) }
    {
        self.reserve(1)?;
        let id = self.next_id();
        let kind = FunctionKind::Import(ImportedFunction { import, ty });
        Ok(self.push_reserved(Function::new(id, kind, None)))
    }

    /// Adds a function with a body, and gives its id. It has the name that was given to what was built.
    ///
    /// # Errors
    ///
    /// Want of memory. The functions stay as they were.
    pub fn add_local(&mut self, function: LocalFunction) -> Result<FunctionId, AllocError>
        ensures id { IfOk result (λ id. id ≡ next_id self.old) }
        ensures added { IfOk result (λ id. Adds (IsLocal id function) self.old self.new) }
        ensures room { self.old.room ≤ self.new.room + 1 }
        ensures refused { OnErr result (self.new ≡ self.old) }
    {
        let name = function.builder().name.clone()?;
        self.reserve(1)?;
        let id = self.next_id();
        Ok(self.push_reserved(Function::new(id, FunctionKind::Local(function), name)))
    }

    /// The lowest function of this name. Goes through the functions.
    pub fn by_name(&self, name: &str) -> Option<FunctionId>
        ensures { result ≡ lowest_id (function_named name.now) self.now }
    {
        self.lowest_id(&Named(name))
    }

    /// The live functions with a body, with their ids, by rising id.
    pub fn iter_local(&self) -> LocalFunctions<'_>
        ensures { result ≡ local_entries (entries self.now) }
    {
        LocalFunctions::new(self.entries())
    }
}

/// The live functions with a body by rising id, seen as the list of those that are left.
#[derive(Drop)]
pub struct LocalFunctions<'a> {
    functions: Iter<'a, Function, FunctionSpace>,
}

impl<'a> Model for LocalFunctions<'a> {
    ghost use Rattle.std.specs.Prelude.{ℕ, List};
    ghost use Rattle.walrus_module_items.specs.walrus_local_function.declared.local_function.LocalFunction.{LocalFunction};
    ghost use Rattle.walrus_collections.specs.LookUps.{local_entries};

    ghost Value = { List (ℕ × LocalFunction) };

    ghost view = { λ it. local_entries it.functions };
}

impl<'a> LocalFunctions<'a> {
    fn new(functions: Iter<'a, Function, FunctionSpace>) -> Self
        ensures { result ≡ local_entries functions.entry }
    {
        LocalFunctions { functions }
    }
}

impl<'a> Iterator for LocalFunctions<'a> {
    type Item = (FunctionId, &'a LocalFunction);

    ghost next_gives = { YieldsFirstBy (λ item. (item.0, item.1.now)) (λ rest. rest) };

    ghost remaining = { item_count (λ rest. rest) };

    fn next(&mut self) -> Option<(FunctionId, &'a LocalFunction)> {
        while let Some((id, function)) = self.functions.next() {
            if let FunctionKind::Local(local) = &function.kind {
                return Some((id, local));
            }
        }
        None
    }
}
