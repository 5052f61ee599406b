//! Types as they stand in a table, and recursion groups (Core Specification, recursive types).
ghost use Rattle.std.specs.Prelude.{◌≡◌, ◌==◌, ◌↔◌, [], not, filter, ◌++◌, IfOk, OnOk, OnErr, IsTrue, None, option_copied};
ghost use Rattle.std.specs.Borrow.{sem};
ghost use Rattle.walrus_forms.specs.Forms.{form_of, function_of, struct_of, array_of, is_function, is_struct, is_array, params_of, results_of};
ghost use Rattle.walrus_forms.specs.Kinds.{function_kind};
ghost use Rattle.walrus_items.specs.Items.{kind_of, item_of, group_of, has_name};
ghost use Rattle.walrus_forms.specs.Same.{same_kind};
ghost use Rattle.walrus_items.specs.Lends.{lends_kind};

use std::alloc::AllocError;
use walrus_forms::arena::{Tombstone, TypeId};
use walrus_forms::{ArrayType, CompositeType, FunctionType, StructType, ValType};

/// A type of a table.
///
/// Types are equal, ordered and hashed by form, finality, supertype and entry mark, never by id or name.
#[derive(Drop)]
#[derive_where(PartialEq, Eq, PartialOrd, Ord, Hash)]
pub struct Type {
    #[derive_where(skip)]
    id: TypeId,
    kind: CompositeType,
    /// Whether no type has it as supertype.
    pub is_final: bool,
    /// The type that it declares to be below.
    pub supertype: Option<TypeId>,
    // Whether it is the type of a body's own block, which is never written.
    entry: bool,
    /// The name that is written for it.
    #[derive_where(skip)]
    pub name: Option<String>,
}

impl Tombstone for Type {
    fn on_delete(&mut self) {}
}

impl Type {
    /// A type without a name. One that is marked as an entry type is that of a body's own block.
    pub fn new(
        id: TypeId,
        kind: CompositeType,
        is_final: bool,
        supertype: Option<TypeId>,
        entry: bool,
    ) -> Self
        ensures { result ≡ record { id = id; kind = kind; is_final = is_final; supertype = supertype; entry = entry; name = None } }
    {
        Type {
            id,
            kind,
            is_final,
            supertype,
            entry,
            name: None,
        }
    }

    /// Its id.
    pub fn id(&self) -> TypeId
        ensures { result ≡ self.now.id }
    {
        self.id
    }

    /// Its form.
    pub fn kind(&self) -> &CompositeType
        ensures { result.now ≡ self.now.kind }
    {
        &self.kind
    }

    /// Its form for writing.
    pub fn kind_mut(&mut self) -> &mut CompositeType
        ensures* writes_back { sem 𝓛 (lends_kind self.entry result) }
        ensures value { result.now ≡ self.old.kind }
    {
        &mut self.kind
    }

    /// The parameters. Asks that it is a function type.
    pub fn params(&self) -> &[ValType]
        requires { IsTrue (is_function (form_of self.now.kind)) }
        ensures { result.now ≡ params_of (form_of self.now.kind) }
    {
        self.kind.unwrap_function().params()
    }

    /// The results. Asks that it is a function type.
    pub fn results(&self) -> &[ValType]
        requires { IsTrue (is_function (form_of self.now.kind)) }
        ensures { result.now ≡ results_of (form_of self.now.kind) }
    {
        self.kind.unwrap_function().results()
    }

    /// The function type, if it is one.
    pub fn as_function(&self) -> Option<&FunctionType>
        ensures { option_copied result ≡ function_of self.now.kind }
    {
        self.kind.as_function()
    }

    /// The structure type, if it is one.
    pub fn as_struct(&self) -> Option<&StructType>
        ensures { option_copied result ≡ struct_of self.now.kind }
    {
        self.kind.as_struct()
    }

    /// The array type, if it is one.
    pub fn as_array(&self) -> Option<&ArrayType>
        ensures { option_copied result ≡ array_of self.now.kind }
    {
        self.kind.as_array()
    }

    /// Whether it is a function type.
    pub fn is_function(&self) -> bool
        ensures { result ≡ is_function (form_of self.now.kind) }
    {
        self.kind.is_function()
    }

    /// Whether it is a structure type.
    pub fn is_struct(&self) -> bool
        ensures { result ≡ is_struct (form_of self.now.kind) }
    {
        self.kind.is_struct()
    }

    /// Whether it is an array type.
    pub fn is_array(&self) -> bool
        ensures { result ≡ is_array (form_of self.now.kind) }
    {
        self.kind.is_array()
    }

    /// Whether it is the type of a body's own block, which is never written.
    pub fn is_entry(&self) -> bool
        ensures { result ≡ self.now.entry }
    {
        self.entry
    }

    /// Whether it has this name.
    pub fn is_named(&self, name: &str) -> bool
        ensures { result ≡ has_name name.now (item_of self.now) }
    {
        match &self.name {
            Some(text) => text.as_str() == name,
            None => false,
        }
    }

    /// Whether it is the final function type without supertype of just these lists.
    pub fn is_function_of(&self, params: &[ValType], results: &[ValType]) -> bool
        ensures { result ≡ same_kind (kind_of self.now) (function_kind params.now results.now) }
    {
        match &self.kind {
            CompositeType::Function(ty) => {
                ty.params() == params
                    && ty.results() == results
                    && self.is_final
                    && self.supertype.is_none()
                    && !self.entry
            }
            _ => false,
        }
    }

    /// A type with the same id, kind and name.
    ///
    /// # Errors
    ///
    /// Want of memory.
    pub fn clone(&self) -> Result<Self, AllocError>
        ensures { IfOk result (λ copy. item_of copy ≡ item_of self.now) }
    {
        Ok(Type {
            id: self.id,
            kind: self.kind.clone()?,
            is_final: self.is_final,
            supertype: self.supertype,
            entry: self.entry,
            name: self.name.clone()?,
        })
    }
}

/// A recursion group: types that may name one another.
#[derive(Drop)]
pub struct RecGroup {
    /// The members, in their order.
    pub types: Vec<TypeId>,
    // Whether it is written as a group, even if it has one member alone.
    explicit: bool,
}

impl Tombstone for RecGroup {
    fn on_delete(&mut self) {}
}

impl RecGroup {
    /// A group of these members, which is written as one, even of one member alone, or not.
    pub fn new(explicit: bool, types: Vec<TypeId>) -> Self
        ensures { result ≡ record { types = types; explicit = explicit } }
    {
        RecGroup { types, explicit }
    }

    /// Whether it is written as a group, even if it has one member alone.
    pub fn is_explicit(&self) -> bool
        ensures { result ≡ self.now.explicit }
    {
        self.explicit
    }

    /// Takes the type out of its members.
    pub fn remove(&mut self, id: TypeId)
        ensures members { self.new.types.items ≡ filter (λ member. not (member == id)) self.old.types.items }
        ensures explicit { self.new.explicit ≡ self.old.explicit }
    {
        self.types.retain(|member| member.index() != id.index());
    }

    /// Whether it has no member.
    pub fn is_empty(&self) -> bool
        ensures { IsTrue result ↔ (self.now.types.items ≡ []) }
    {
        self.types.is_empty()
    }

    /// An equal group.
    ///
    /// # Errors
    ///
    /// Want of memory.
    pub fn clone(&self) -> Result<Self, AllocError>
        ensures { IfOk result (λ copy. group_of copy ≡ group_of self.now) }
    {
        Ok(RecGroup {
            types: self.types.clone()?,
            explicit: self.explicit,
        })
    }
}
