//! The abstract reference types that are not shared, by name (Core Specification, text format: reference types).

use crate::heap::AbstractHeapType;
use crate::reference::{NULLABLE, RefType};

impl RefType {
    /// `(ref null func)`.
    pub const FUNCREF: Self = RefType {
        bits: NULLABLE | AbstractHeapType::Func as u32,
    };
    /// `(ref null extern)`.
    pub const EXTERNREF: Self = RefType {
        bits: NULLABLE | AbstractHeapType::Extern as u32,
    };
    /// `(ref null any)`.
    pub const ANYREF: Self = RefType {
        bits: NULLABLE | AbstractHeapType::Any as u32,
    };
    /// `(ref null none)`.
    pub const NULLREF: Self = RefType {
        bits: NULLABLE | AbstractHeapType::None as u32,
    };
    /// `(ref null noextern)`.
    pub const NULLEXTERNREF: Self = RefType {
        bits: NULLABLE | AbstractHeapType::NoExtern as u32,
    };
    /// `(ref null nofunc)`.
    pub const NULLFUNCREF: Self = RefType {
        bits: NULLABLE | AbstractHeapType::NoFunc as u32,
    };
    /// `(ref null eq)`.
    pub const EQREF: Self = RefType {
        bits: NULLABLE | AbstractHeapType::Eq as u32,
    };
    /// `(ref null struct)`.
    pub const STRUCTREF: Self = RefType {
        bits: NULLABLE | AbstractHeapType::Struct as u32,
    };
    /// `(ref null array)`.
    pub const ARRAYREF: Self = RefType {
        bits: NULLABLE | AbstractHeapType::Array as u32,
    };
    /// `(ref null i31)`.
    pub const I31REF: Self = RefType {
        bits: NULLABLE | AbstractHeapType::I31 as u32,
    };
    /// `(ref null exn)`.
    pub const EXNREF: Self = RefType {
        bits: NULLABLE | AbstractHeapType::Exn as u32,
    };
    /// `(ref null noexn)`.
    pub const NULLEXNREF: Self = RefType {
        bits: NULLABLE | AbstractHeapType::NoExn as u32,
    };
    /// `(ref null cont)`.
    pub const CONTREF: Self = RefType {
        bits: NULLABLE | AbstractHeapType::Cont as u32,
    };
    /// `(ref null nocont)`.
    pub const NULLCONTREF: Self = RefType {
        bits: NULLABLE | AbstractHeapType::NoCont as u32,
    };
    /// `(ref func)`.
    pub const FUNC: Self = RefType {
        bits: AbstractHeapType::Func as u32,
    };
    /// `(ref extern)`.
    pub const EXTERN: Self = RefType {
        bits: AbstractHeapType::Extern as u32,
    };
    /// `(ref any)`.
    pub const ANY: Self = RefType {
        bits: AbstractHeapType::Any as u32,
    };
    /// `(ref none)`.
    pub const NONE: Self = RefType {
        bits: AbstractHeapType::None as u32,
    };
    /// `(ref noextern)`.
    pub const NOEXTERN: Self = RefType {
        bits: AbstractHeapType::NoExtern as u32,
    };
    /// `(ref nofunc)`.
    pub const NOFUNC: Self = RefType {
        bits: AbstractHeapType::NoFunc as u32,
    };
    /// `(ref eq)`.
    pub const EQ: Self = RefType {
        bits: AbstractHeapType::Eq as u32,
    };
    /// `(ref struct)`.
    pub const STRUCT: Self = RefType {
        bits: AbstractHeapType::Struct as u32,
    };
    /// `(ref array)`.
    pub const ARRAY: Self = RefType {
        bits: AbstractHeapType::Array as u32,
    };
    /// `(ref i31)`.
    pub const I31: Self = RefType {
        bits: AbstractHeapType::I31 as u32,
    };
    /// `(ref exn)`.
    pub const EXN: Self = RefType {
        bits: AbstractHeapType::Exn as u32,
    };
    /// `(ref noexn)`.
    pub const NOEXN: Self = RefType {
        bits: AbstractHeapType::NoExn as u32,
    };
    /// `(ref cont)`.
    pub const CONT: Self = RefType {
        bits: AbstractHeapType::Cont as u32,
    };
    /// `(ref nocont)`.
    pub const NOCONT: Self = RefType {
        bits: AbstractHeapType::NoCont as u32,
    };
}
