//! Locals: the parameters and variables of all functions of a module.
ghost use Rattle.std.specs.Prelude.{◌≡◌, ◌<◌, [], ◌∷◌, ◌++◌, IfOk, OnOk, OnErr, None, Some, length, slice_get, string_bytes};
ghost use Rattle.std.specs.Option.{option_map};
ghost use Rattle.std.specs.Borrow.{sem};
ghost use Rattle.std.specs.Slice.Iter.{iter_rest};
ghost use Rattle.walrus_items.specs.LocalLends.{lends_local};

use std::alloc::{AllocError, Global};
use std::marker::Model;
use std::slice;
use walrus_forms::ValType;
use walrus_forms::arena::LocalId;

/// A local of a function (Core Specification, functions: locals).
#[derive(Drop)]
pub struct Local {
    id: LocalId,
    ty: ValType,
    /// The name that is written for it.
    pub name: Option<String>,
}

impl Local {
    /// A local of this id and type, without a name.
    pub fn new(id: LocalId, ty: ValType) -> Self
        ensures { result ≡ record { id = id; ty = ty; name = None } }
    {
        Local { id, ty, name: None }
    }

    /// Its id.
    pub fn id(&self) -> LocalId
        ensures { result ≡ self.now.id }
    {
        self.id
    }

    /// Its type.
    pub fn ty(&self) -> ValType
        ensures { result ≡ self.now.ty }
    {
        self.ty
    }

    /// An equal local, of the same id.
    ///
    /// # Errors
    ///
    /// Want of memory.
    pub fn clone(&self) -> Result<Self, AllocError>
        ensures id { IfOk result (λ copy. copy.id ≡ self.now.id) }
        ensures ty { IfOk result (λ copy. copy.ty ≡ self.now.ty) }
        ensures name { IfOk result (λ copy. option_map string_bytes copy.name ≡ option_map string_bytes self.now.name) }
    {
        Ok(Local {
            id: self.id,
            ty: self.ty,
            name: self.name.clone()?,
        })
    }
}

/// The locals of a module by id. None is ever deleted.
#[derive(Drop)]
pub struct ModuleLocals {
    locals: Vec<Local>,
}

impl Model for ModuleLocals {
    ghost use Rattle.std.specs.Prelude.{List};
    ghost use Rattle.walrus_items.specs.declared.local.Local.{Local};

    ghost Value = { List Local };

    ghost view = { λ m. m.locals.items };
}

impl ModuleLocals {
    /// No locals. Takes no memory.
    pub fn new(alloc: Global) -> Self
        ensures { result ≡ [] }
    {
        ModuleLocals {
            locals: Vec::new(alloc),
        }
    }

    /// Adds a local of this type and gives its id.
    ///
    /// # Errors
    ///
    /// Want of memory. The locals stay as they were.
    pub fn add(&mut self, ty: ValType) -> Result<LocalId, AllocError>
        ensures id { IfOk result (λ id. id ≡ length self.old) }
        ensures added { IfOk result (λ id. self.new ≡ self.old ++ record { id = id; ty = ty; name = None } ∷ []) }
        ensures refused { OnErr result (self.new ≡ self.old) }
    {
        if self.locals.len() >= u32::MAX as usize {
            return Err(AllocError);
        }
        let id = LocalId::from_index(self.locals.len());
        self.locals.push(Local::new(id, ty))?;
        Ok(id)
    }

    /// The local of a known id.
    pub fn get(&self, id: LocalId) -> &Local
        requires { id < length self.now }
        ensures { slice_get self.now id ≡ Some result.now }
    {
        &self.locals[id.index()]
    }

    /// The local of a known id, for writing.
    pub fn get_mut(&mut self, id: LocalId) -> &mut Local
        requires { id < length self.old }
        ensures* writes_back { sem 𝓛 (lends_local self.entry id result) }
        ensures value { slice_get self.old id ≡ Some result.now }
    {
        &mut self.locals[id.index()]
    }

    /// The locals, by rising id.
    pub fn iter(&self) -> slice::Iter<'_, Local>
        ensures { iter_rest result ≡ self.now }
    {
        self.locals.iter()
    }
}
