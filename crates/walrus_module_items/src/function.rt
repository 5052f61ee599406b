//! Functions.
ghost use Rattle.std.specs.Prelude.{◌≡◌, IsSome, Some};
ghost use Rattle.std.specs.Borrow.{sem};
ghost use Rattle.walrus_module_items.specs.Functions.{type_of, imported_of, local_of, lends_imported, lends_local};

use walrus_arena::{FunctionId, ImportId, Tombstone, TypeId};
use walrus_forms::ValType;
use walrus_local_function::LocalFunction;

/// The parameters of a function.
pub type FuncParams = Vec<ValType>;

/// The results of a function.
pub type FuncResults = Vec<ValType>;

/// A function that an import brings into the module.
#[derive(Drop)]
pub struct ImportedFunction {
    /// The import.
    pub import: ImportId,
    /// The function's type.
    pub ty: TypeId,
}

/// Where a function comes from.
#[derive(Drop)]
pub enum FunctionKind {
    /// An import brings it.
    Import(ImportedFunction),
    /// It has a body.
    Local(LocalFunction),
    /// It has a type, and no body yet.
    Uninitialized(TypeId),
}

/// A function (Core Specification, functions).
#[derive(Drop)]
pub struct Function {
    id: FunctionId,
    /// Where it comes from.
    pub kind: FunctionKind,
    /// The name that is written for it.
    pub name: Option<String>,
}

impl Tombstone for Function {
    fn on_delete(&mut self) {}
}

impl FunctionKind {
    /// The function's type.
    pub fn ty(&self) -> TypeId
        ensures { result ≡ type_of self.now }
    {
        match self {
            FunctionKind::Import(imported) => imported.ty,
            FunctionKind::Local(local) => local.ty(),
            FunctionKind::Uninitialized(ty) => *ty,
        }
    }

    /// The imported function. Asks that it is one.
    pub fn unwrap_import(&self) -> &ImportedFunction
        requires { IsSome (imported_of self.now) }
        ensures { imported_of self.now ≡ Some result.now }
    {
        match self {
            FunctionKind::Import(imported) => imported,
            _ => unreachable!(),
        }
    }

    /// The function with a body. Asks that it is one.
    pub fn unwrap_local(&self) -> &LocalFunction
        requires { IsSome (local_of self.now) }
        ensures { local_of self.now ≡ Some result.now }
    {
        match self {
            FunctionKind::Local(local) => local,
            _ => unreachable!(),
        }
    }

    /// The imported function, for writing. Asks that it is one.
    pub fn unwrap_import_mut(&mut self) -> &mut ImportedFunction
        requires { IsSome (imported_of self.old) }
        ensures* writes_back { sem 𝓛 (lends_imported self.entry result) }
        ensures value { imported_of self.old ≡ Some result.now }
    {
        match self {
            FunctionKind::Import(imported) => imported,
            _ => unreachable!(),
        }
    }

    /// The function with a body, for writing. Asks that it is one.
    pub fn unwrap_local_mut(&mut self) -> &mut LocalFunction
        requires { IsSome (local_of self.old) }
        ensures* writes_back { sem 𝓛 (lends_local self.entry result) }
        ensures value { local_of self.old ≡ Some result.now }
    {
        match self {
            FunctionKind::Local(local) => local,
            _ => unreachable!(),
        }
    }
}

impl Function {
    /// A function of this id.
    pub fn new(id: FunctionId, kind: FunctionKind, name: Option<String>) -> Self
        ensures { result ≡ record { id = id; kind = kind; name = name } }
    {
        Function { id, kind, name }
    }

    /// Its id.
    pub fn id(&self) -> FunctionId
        ensures { result ≡ self.now.id }
    {
        self.id
    }

    /// Its type.
    pub fn ty(&self) -> TypeId
        ensures { result ≡ type_of self.now.kind }
    {
        self.kind.ty()
    }
}
