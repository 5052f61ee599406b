//! Heap types (Core Specification, types: heap types).

ghost use Rattle.std.specs.Prelude.{◌≡◌, ◌<◌, ◌↔◌, IsTrue};
ghost use Rattle.wasm_ref_types.specs.Heaps.{rank};
ghost use Rattle.wasm_ref_types.specs.Packed.{of_rank};
ghost use Rattle.wasm_ref_types.specs.Subtypes.{IsBelow, supertypes};

use crate::index::UnpackedIndex;

/// A heap type that is no index.
#[derive(Clone, Copy, Debug, PartialEq, Eq, PartialOrd, Ord, Hash)]
pub enum AbstractHeapType {
    /// All functions.
    Func,
    /// All values of the host.
    Extern,
    /// All values that are no functions, values of the host, exceptions or continuations.
    Any,
    /// No value of `Any`.
    None,
    /// No value of `Extern`.
    NoExtern,
    /// No value of `Func`.
    NoFunc,
    /// All values that can be compared for identity.
    Eq,
    /// All structures.
    Struct,
    /// All arrays.
    Array,
    /// All integers of 31 bits.
    I31,
    /// All exceptions.
    Exn,
    /// No value of `Exn`.
    NoExn,
    /// All continuations.
    Cont,
    /// No value of `Cont`.
    NoCont,
}

impl AbstractHeapType {
    /// Whether each value of the type is one of the other type. No type is below one of another of the hierarchies of `any`,
    /// `func`, `extern`, `exn` and `cont`.
    pub fn is_subtype_of(&self, other: AbstractHeapType) -> bool
        ensures { IsTrue result ↔ IsBelow self.now other }
    {
        self.supertypes().contains(&other)
    }

    // The types that the type is below, itself first.
    fn supertypes(&self) -> &'static [AbstractHeapType]
        ensures { result.now ≡ supertypes self.now }
    {
        use AbstractHeapType::{
            Any, Array, Cont, Eq, Exn, Extern, Func, I31, NoCont, NoExn, NoExtern, NoFunc, None,
            Struct,
        };
        match self {
            Func => &[Func],
            Extern => &[Extern],
            Any => &[Any],
            None => &[None, I31, Struct, Array, Eq, Any],
            NoExtern => &[NoExtern, Extern],
            NoFunc => &[NoFunc, Func],
            Eq => &[Eq, Any],
            Struct => &[Struct, Eq, Any],
            Array => &[Array, Eq, Any],
            I31 => &[I31, Eq, Any],
            Exn => &[Exn],
            NoExn => &[NoExn, Exn],
            Cont => &[Cont],
            NoCont => &[NoCont, Cont],
        }
    }

    // The place of the type in their order.
    pub(crate) fn rank(self) -> u32
        ensures rank { result ≡ rank self }
        ensures small { result < 14 }
    {
        self as u32
    }

    // The type at a place in their order.
    pub(crate) fn of_rank(rank: u32) -> Self
        ensures { result ≡ of_rank rank }
    {
        match rank {
            0 => AbstractHeapType::Func,
            1 => AbstractHeapType::Extern,
            2 => AbstractHeapType::Any,
            3 => AbstractHeapType::None,
            4 => AbstractHeapType::NoExtern,
            5 => AbstractHeapType::NoFunc,
            6 => AbstractHeapType::Eq,
            7 => AbstractHeapType::Struct,
            8 => AbstractHeapType::Array,
            9 => AbstractHeapType::I31,
            10 => AbstractHeapType::Exn,
            11 => AbstractHeapType::NoExn,
            12 => AbstractHeapType::Cont,
            _ => AbstractHeapType::NoCont,
        }
    }
}

/// What a reference points to.
#[derive(Clone, Copy, Debug, PartialEq, Eq, Hash)]
pub enum HeapType {
    /// A type that is no index; shared ones stand apart from those that are not.
    Abstract {
        /// Whether the values may be shared between threads.
        shared: bool,
        /// The type.
        ty: AbstractHeapType,
    },
    /// The values of this type and of its subtypes.
    Concrete(UnpackedIndex),
    /// The values of this type alone.
    Exact(UnpackedIndex),
}

impl HeapType {
    /// All functions.
    pub const FUNC: Self = HeapType::Abstract {
        shared: false,
        ty: AbstractHeapType::Func,
    };
    /// All values of the host.
    pub const EXTERN: Self = HeapType::Abstract {
        shared: false,
        ty: AbstractHeapType::Extern,
    };
}
