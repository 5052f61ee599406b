//! Subtypes (Core Specification, types: recursive types).

ghost use Rattle.std.specs.Prelude.{◌≡◌, true, IfOk, IsTrue, Some, None};
ghost use Rattle.wasm_composite_types.specs.Forms.{function_of, array_of, struct_of, continuation_of, is_function, is_array, is_struct, is_continuation};
ghost use Rattle.wasm_types.specs.Plain.{plain_function_of};
ghost use Rattle.wasm_composite_types.specs.declared.form.CompositeInnerType.TheVariants.{Func};

use std::alloc::AllocError;
use wasm_composite_types::ref_types::PackedIndex;
use wasm_composite_types::{
    ArrayType, CompositeInnerType, CompositeType, ContType, FuncType, StructType,
};

/// A type with its place among subtypes.
#[derive(PartialEq, Eq, PartialOrd, Ord, Hash, Drop)]
pub struct SubType {
    /// Whether no type may have it as supertype.
    pub is_final: bool,
    /// The type that it declares to be below.
    pub supertype_idx: Option<PackedIndex>,
    /// Its form.
    pub composite_type: CompositeType,
}

impl SubType {
    /// The final type of these functions, which is below no other. Takes no memory, and is never refused.
    pub fn func(signature: FuncType, shared: bool) -> Result<Self, AllocError>
        ensures { result ≡ Ok (record { is_final = true; supertype_idx = None; composite_type = record { inner = Func signature; shared = shared } }) }
    {
        Ok(SubType {
            is_final: true,
            supertype_idx: None,
            composite_type: CompositeType {
                inner: CompositeInnerType::Func(signature),
                shared,
            },
        })
    }

    // The function type, if it is one and neither another type is above it nor may one be below it.
    pub(crate) fn into_function(self) -> Option<FuncType>
        ensures { result ≡ plain_function_of self }
    {
        let SubType {
            is_final,
            supertype_idx,
            composite_type,
        } = self;
        if !is_final || supertype_idx.is_some() {
            return None;
        }
        function_of(composite_type.inner)
    }

    /// The function type. Asks that it is one.
    pub fn unwrap_func(&self) -> &FuncType
        requires { IsTrue (is_function self.now.composite_type.inner) }
        ensures { function_of self.now.composite_type.inner ≡ Some result.now }
    {
        self.composite_type.unwrap_func()
    }

    /// The array type. Asks that it is one.
    pub fn unwrap_array(&self) -> &ArrayType
        requires { IsTrue (is_array self.now.composite_type.inner) }
        ensures { array_of self.now.composite_type.inner ≡ Some result.now }
    {
        self.composite_type.unwrap_array()
    }

    /// The structure type. Asks that it is one.
    pub fn unwrap_struct(&self) -> &StructType
        requires { IsTrue (is_struct self.now.composite_type.inner) }
        ensures { struct_of self.now.composite_type.inner ≡ Some result.now }
    {
        self.composite_type.unwrap_struct()
    }

    /// The continuation type. Asks that it is one.
    pub fn unwrap_cont(&self) -> &ContType
        requires { IsTrue (is_continuation self.now.composite_type.inner) }
        ensures { continuation_of self.now.composite_type.inner ≡ Some result.now }
    {
        self.composite_type.unwrap_cont()
    }

    /// An equal type.
    ///
    /// # Errors
    ///
    /// Want of memory.
    pub fn clone(&self) -> Result<Self, AllocError>
        ensures { IfOk result (λ copy. copy ≡ self.now) }
    {
        Ok(SubType {
            is_final: self.is_final,
            supertype_idx: self.supertype_idx,
            composite_type: self.composite_type.clone()?,
        })
    }
}

// The function type, if it is one.
fn function_of(form: CompositeInnerType) -> Option<FuncType>
    ensures { result ≡ function_of form }
{
    match form {
        CompositeInnerType::Func(ty) => Some(ty),
        _ => None,
    }
}
