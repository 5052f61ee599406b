//! Value types (Core Specification, types: value types).

ghost use Rattle.std.specs.Prelude.{◌≡◌};
ghost use Rattle.wasm_ref_types.specs.declared.value.ValType.TheVariants.{Ref};
ghost use Rattle.wasm_ref_types.specs.Values.{value_reference, is_reference, has_default};

use crate::reference::RefType;

/// The type of a value on the stack. Numbers come first in the order, then vectors, then references.
#[derive(Clone, Copy, PartialEq, Eq, PartialOrd, Ord, Hash)]
pub enum ValType {
    /// Integers of 32 bits.
    I32,
    /// Integers of 64 bits.
    I64,
    /// Floats of 32 bits.
    F32,
    /// Floats of 64 bits.
    F64,
    /// Vectors of 128 bits.
    V128,
    /// References.
    Ref(RefType),
}

impl ValType {
    /// `(ref null func)`.
    pub const FUNCREF: Self = ValType::Ref(RefType::FUNCREF);
    /// `(ref null extern)`.
    pub const EXTERNREF: Self = ValType::Ref(RefType::EXTERNREF);
    /// `(ref null exn)`.
    pub const EXNREF: Self = ValType::Ref(RefType::EXNREF);
    /// `(ref null cont)`.
    pub const CONTREF: Self = ValType::Ref(RefType::CONTREF);

    /// Whether the values are references.
    pub fn is_reference_type(&self) -> bool
        ensures { result ≡ is_reference self.now }
    {
        matches!(self, ValType::Ref(_))
    }

    /// The reference type, if it is one.
    pub fn as_reference_type(&self) -> Option<RefType>
        ensures { result ≡ value_reference self.now }
    {
        match *self {
            ValType::Ref(ty) => Some(ty),
            _ => None,
        }
    }

    /// Whether a local of the type has a value from the start: 0 or null.
    pub fn is_defaultable(&self) -> bool
        ensures { result ≡ has_default self.now }
    {
        match self {
            ValType::Ref(ty) => ty.is_nullable(),
            _ => true,
        }
    }
}

impl From<RefType> for ValType {
    ghost from_gives = { λ ty result. result ≡ Ref ty };

    fn from(ty: RefType) -> ValType {
        ValType::Ref(ty)
    }
}
