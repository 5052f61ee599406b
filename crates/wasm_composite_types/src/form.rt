//! Composite types (Core Specification, types: composite types).

ghost use Rattle.std.specs.Prelude.{◌≡◌, [], ◌∷◌, ◌++◌, IfOk, IsTrue, IsFalse, Some, None};
ghost use Rattle.std.specs.Iterator.{Drains};
ghost use Rattle.wasm_ref_types.specs.declared.value.ValType.{ValType};
ghost use Rattle.wasm_composite_types.specs.Forms.{function_of, array_of, struct_of, continuation_of, is_function, is_array, is_struct, is_continuation};

use crate::field::FieldType;
use crate::list::TypeList;
use std::alloc::{AllocError, Global};
use wasm_ref_types::{PackedIndex, ValType};

/// The type of functions from parameters to results.
#[derive(PartialEq, Eq, PartialOrd, Ord, Hash, Drop)]
pub struct FuncType {
    pub(crate) params: TypeList<ValType>,
    pub(crate) results: TypeList<ValType>,
}

// Adds what the iterator gives next, and says whether it gave any.
fn push_next<I: Iterator<Item = ValType>>(
    items: &mut I,
    taken: &mut Vec<ValType>,
) -> Result<bool, AllocError>
    requires { I.can_next items.old }
    ensures more { IfOk result (λ more. IsTrue more → (item : ValType) × I.next_gives items.old (Some item) items.new
        × (taken.new.items ≡ taken.old.items ++ item ∷ []) × I.can_next items.new) }
    ensures end { IfOk result (λ more. IsFalse more → I.next_gives items.old None items.new × (taken.new.items ≡ taken.old.items)) }
{
    match items.next() {
        Some(item) => {
            taken.push(item)?;
            Ok(true)
        }
        None => Ok(false),
    }
}

// All that the iterator gives. One that never ends is refused for want of memory.
fn drained<I: Iterator<Item = ValType> + Drop>(
    alloc: Global,
    mut items: I,
) -> Result<Vec<ValType>, AllocError>
    requires { I.can_next items }
    ensures { IfOk result (λ all. Drains I.next_gives items all.items) }
{
    let mut taken = Vec::new(alloc);
    while push_next(&mut items, &mut taken)? {}
    Ok(taken)
}

impl FuncType {
    /// The type of these parameters and results, in their order.
    ///
    /// # Errors
    ///
    /// Want of memory.
    pub fn new<P, R>(alloc: Global, params: P, results: R) -> Result<Self, AllocError>
    where
        P: IntoIterator<Item = ValType>,
        R: IntoIterator<Item = ValType> + Drop,
        requires params { (it : P.IntoIter) → P.into_iter_gives params it → P.IntoIter.can_next it }
        requires results { (it : R.IntoIter) → R.into_iter_gives results it → R.IntoIter.can_next it }
        ensures params { IfOk result (λ ty. (it : P.IntoIter) × P.into_iter_gives params it × Drains P.IntoIter.next_gives it ty.params) }
        ensures results { IfOk result (λ ty. (it : R.IntoIter) × R.into_iter_gives results it × Drains R.IntoIter.next_gives it ty.results) }
    {
        let params = drained(alloc, params.into_iter())?;
        let results = drained(alloc, results.into_iter())?;
        Ok(FuncType {
            params: TypeList::from_vec(params),
            results: TypeList::from_vec(results),
        })
    }

    /// The types of the parameters.
    #[inline]
    pub fn params(&self) -> &[ValType]
        ensures { result.now ≡ self.now.params }
    {
        self.params.as_slice()
    }

    /// The types of the results.
    #[inline]
    pub fn results(&self) -> &[ValType]
        ensures { result.now ≡ self.now.results }
    {
        self.results.as_slice()
    }

    /// An equal type.
    ///
    /// # Errors
    ///
    /// Want of memory.
    pub fn clone(&self) -> Result<Self, AllocError>
        ensures { IfOk result (λ copy. copy ≡ self.now) }
    {
        Ok(FuncType {
            params: self.params.clone()?,
            results: self.results.clone()?,
        })
    }
}

/// The type of arrays of elements of this field type.
#[derive(Clone, Copy, PartialEq, Eq, PartialOrd, Ord, Hash)]
pub struct ArrayType(pub FieldType);

/// The type of structures of these fields.
#[derive(PartialEq, Eq, PartialOrd, Ord, Hash, Drop)]
pub struct StructType {
    /// The types of the fields.
    pub fields: TypeList<FieldType>,
}

impl StructType {
    /// An equal type.
    ///
    /// # Errors
    ///
    /// Want of memory.
    pub fn clone(&self) -> Result<Self, AllocError>
        ensures { IfOk result (λ copy. copy ≡ self.now) }
    {
        Ok(StructType {
            fields: self.fields.clone()?,
        })
    }
}

/// The type of continuations of functions of the type that this index names. No bytes give it.
#[derive(Clone, Copy, PartialEq, Eq, PartialOrd, Ord, Hash)]
pub struct ContType(pub PackedIndex);

/// The form of a type.
#[derive(PartialEq, Eq, PartialOrd, Ord, Hash, Drop)]
pub enum CompositeInnerType {
    /// Functions.
    Func(FuncType),
    /// Arrays.
    Array(ArrayType),
    /// Structures.
    Struct(StructType),
    /// Continuations.
    Cont(ContType),
}

impl CompositeInnerType {
    /// An equal form.
    ///
    /// # Errors
    ///
    /// Want of memory.
    pub fn clone(&self) -> Result<Self, AllocError>
        ensures { IfOk result (λ copy. copy ≡ self.now) }
    {
        match self {
            CompositeInnerType::Func(ty) => Ok(CompositeInnerType::Func(ty.clone()?)),
            CompositeInnerType::Array(ty) => Ok(CompositeInnerType::Array(*ty)),
            CompositeInnerType::Struct(ty) => Ok(CompositeInnerType::Struct(ty.clone()?)),
            CompositeInnerType::Cont(ty) => Ok(CompositeInnerType::Cont(*ty)),
        }
    }
}

/// A form, and whether values of it may be shared between threads.
#[derive(PartialEq, Eq, PartialOrd, Ord, Hash, Drop)]
pub struct CompositeType {
    /// The form.
    pub inner: CompositeInnerType,
    /// Whether values may be shared between threads.
    pub shared: bool,
}

impl CompositeType {
    /// The function type. Asks that it is one.
    pub fn unwrap_func(&self) -> &FuncType
        requires { IsTrue (is_function self.now.inner) }
        ensures { function_of self.now.inner ≡ Some result.now }
    {
        match &self.inner {
            CompositeInnerType::Func(ty) => ty,
            _ => unreachable!(),
        }
    }

    /// The array type. Asks that it is one.
    pub fn unwrap_array(&self) -> &ArrayType
        requires { IsTrue (is_array self.now.inner) }
        ensures { array_of self.now.inner ≡ Some result.now }
    {
        match &self.inner {
            CompositeInnerType::Array(ty) => ty,
            _ => unreachable!(),
        }
    }

    /// The structure type. Asks that it is one.
    pub fn unwrap_struct(&self) -> &StructType
        requires { IsTrue (is_struct self.now.inner) }
        ensures { struct_of self.now.inner ≡ Some result.now }
    {
        match &self.inner {
            CompositeInnerType::Struct(ty) => ty,
            _ => unreachable!(),
        }
    }

    /// The continuation type. Asks that it is one.
    pub fn unwrap_cont(&self) -> &ContType
        requires { IsTrue (is_continuation self.now.inner) }
        ensures { continuation_of self.now.inner ≡ Some result.now }
    {
        match &self.inner {
            CompositeInnerType::Cont(ty) => ty,
            _ => unreachable!(),
        }
    }

    /// An equal type.
    ///
    /// # Errors
    ///
    /// Want of memory.
    pub fn clone(&self) -> Result<Self, AllocError>
        ensures { IfOk result (λ copy. copy ≡ self.now) }
    {
        Ok(CompositeType {
            inner: self.inner.clone()?,
            shared: self.shared,
        })
    }
}
