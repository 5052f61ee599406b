//! Composite types (Core Specification, composite types).
ghost use Rattle.std.specs.Prelude.{◌≡◌, IfOk, IsTrue, Some, option_copied};
ghost use Rattle.std.specs.Option.{option_copied_mut};
ghost use Rattle.std.specs.Borrow.{sem};
ghost use Rattle.walrus_forms.specs.Forms.{form_of, function_of, struct_of, array_of, is_function, is_struct, is_array};
ghost use Rattle.walrus_forms.specs.Lends.{lends_function};

use crate::value::{FieldType, ValType};
use std::alloc::AllocError;

/// The type of functions from parameters to results.
#[derive(PartialEq, Eq, PartialOrd, Ord, Hash, Drop)]
pub struct FunctionType {
    params: Vec<ValType>,
    results: Vec<ValType>,
}

impl FunctionType {
    /// The type of these parameters and results.
    pub fn new(params: Vec<ValType>, results: Vec<ValType>) -> Self
        ensures params { result.params ≡ params }
        ensures results { result.results ≡ results }
    {
        FunctionType { params, results }
    }

    /// The types of the parameters.
    pub fn params(&self) -> &[ValType]
        ensures { result.now ≡ self.now.params.items }
    {
        self.params.as_slice()
    }

    /// The types of the results.
    pub fn results(&self) -> &[ValType]
        ensures { result.now ≡ self.now.results.items }
    {
        self.results.as_slice()
    }

    /// An equal type.
    ///
    /// # Errors
    ///
    /// Want of memory.
    pub fn clone(&self) -> Result<Self, AllocError>
        ensures params { IfOk result (λ copy. copy.params.items ≡ self.now.params.items) }
        ensures results { IfOk result (λ copy. copy.results.items ≡ self.now.results.items) }
    {
        Ok(FunctionType {
            params: self.params.clone()?,
            results: self.results.clone()?,
        })
    }
}

/// The type of structures of these fields.
#[derive(PartialEq, Eq, PartialOrd, Ord, Hash, Drop)]
pub struct StructType {
    pub fields: Vec<FieldType>,
}

impl StructType {
    /// An equal type.
    ///
    /// # Errors
    ///
    /// Want of memory.
    pub fn clone(&self) -> Result<Self, AllocError>
        ensures { IfOk result (λ copy. copy.fields.items ≡ self.now.fields.items) }
    {
        Ok(StructType {
            fields: self.fields.clone()?,
        })
    }
}

/// The type of arrays whose elements are all of this field type.
#[derive(Clone, Copy, PartialEq, Eq, PartialOrd, Ord, Hash)]
pub struct ArrayType {
    pub field: FieldType,
}

/// The form of a type. Functions come first in the order, then structures, then arrays.
#[derive(PartialEq, Eq, PartialOrd, Ord, Hash, Drop)]
pub enum CompositeType {
    Function(FunctionType),
    Struct(StructType),
    Array(ArrayType),
}

impl CompositeType {
    /// The function type, if it is one.
    pub fn as_function(&self) -> Option<&FunctionType>
        ensures { option_copied result ≡ function_of self.now }
    {
        match self {
            CompositeType::Function(ty) => Some(ty),
            _ => None,
        }
    }

    /// The function type for writing, if it is one.
    pub fn as_function_mut(&mut self) -> Option<&mut FunctionType>
        ensures* writes_back { sem 𝓛 (lends_function self.entry result) }
        ensures value { option_copied_mut result ≡ function_of self.old }
    {
        match self {
            CompositeType::Function(ty) => Some(ty),
            _ => None,
        }
    }

    /// The structure type, if it is one.
    pub fn as_struct(&self) -> Option<&StructType>
        ensures { option_copied result ≡ struct_of self.now }
    {
        match self {
            CompositeType::Struct(ty) => Some(ty),
            _ => None,
        }
    }

    /// The array type, if it is one.
    pub fn as_array(&self) -> Option<&ArrayType>
        ensures { option_copied result ≡ array_of self.now }
    {
        match self {
            CompositeType::Array(ty) => Some(ty),
            _ => None,
        }
    }

    /// The function type. Asks that it is one.
    pub fn unwrap_function(&self) -> &FunctionType
        requires { IsTrue (is_function (form_of self.now)) }
        ensures { function_of self.now ≡ Some result.now }
    {
        match self {
            CompositeType::Function(ty) => ty,
            _ => unreachable!(),
        }
    }

    /// The structure type. Asks that it is one.
    pub fn unwrap_struct(&self) -> &StructType
        requires { IsTrue (is_struct (form_of self.now)) }
        ensures { struct_of self.now ≡ Some result.now }
    {
        match self {
            CompositeType::Struct(ty) => ty,
            _ => unreachable!(),
        }
    }

    /// The array type. Asks that it is one.
    pub fn unwrap_array(&self) -> &ArrayType
        requires { IsTrue (is_array (form_of self.now)) }
        ensures { array_of self.now ≡ Some result.now }
    {
        match self {
            CompositeType::Array(ty) => ty,
            _ => unreachable!(),
        }
    }

    /// Whether it is a function type.
    pub fn is_function(&self) -> bool
        ensures { result ≡ is_function (form_of self.now) }
    {
        matches!(self, CompositeType::Function(_))
    }

    /// Whether it is a structure type.
    pub fn is_struct(&self) -> bool
        ensures { result ≡ is_struct (form_of self.now) }
    {
        matches!(self, CompositeType::Struct(_))
    }

    /// Whether it is an array type.
    pub fn is_array(&self) -> bool
        ensures { result ≡ is_array (form_of self.now) }
    {
        matches!(self, CompositeType::Array(_))
    }

    /// An equal type.
    ///
    /// # Errors
    ///
    /// Want of memory.
    pub fn clone(&self) -> Result<Self, AllocError>
        ensures { IfOk result (λ copy. form_of copy ≡ form_of self.now) }
    {
        match self {
            CompositeType::Function(ty) => Ok(CompositeType::Function(ty.clone()?)),
            CompositeType::Struct(ty) => Ok(CompositeType::Struct(ty.clone()?)),
            CompositeType::Array(ty) => Ok(CompositeType::Array(*ty)),
        }
    }
}
