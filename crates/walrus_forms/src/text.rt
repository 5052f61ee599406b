//! The texts of types (Core Specification, text format: types). A type that is named is written as the number of its id.

ghost use Rattle.std.specs.Prelude.{◌≡◌, Some};
ghost use Rattle.walrus_forms.specs.Texts.{abstract_text, heap_text, reference_text, value_text};

use crate::value::{AbstractHeapType, HeapType, RefType, ValType};
use std::fmt;

impl AbstractHeapType {
    fn name(&self) -> &'static str
        ensures { result.now ≡ abstract_text self.now }
    {
        match self {
            AbstractHeapType::Func => "func",
            AbstractHeapType::Extern => "extern",
            AbstractHeapType::Any => "any",
            AbstractHeapType::None => "none",
            AbstractHeapType::NoExtern => "noextern",
            AbstractHeapType::NoFunc => "nofunc",
            AbstractHeapType::Eq => "eq",
            AbstractHeapType::Struct => "struct",
            AbstractHeapType::Array => "array",
            AbstractHeapType::I31 => "i31",
            AbstractHeapType::Exn => "exn",
            AbstractHeapType::NoExn => "noexn",
        }
    }
}

/// Writes the type's name, as `func`.
impl fmt::Display for AbstractHeapType {
    ghost output = { λ ty. Some (abstract_text ty) };

    fn fmt<W: fmt::Write>(&self, f: &mut fmt::Formatter<W>) -> fmt::Result {
        f.write_str(self.name())
    }
}

/// Writes an abstract type's name, in `(shared ..)` where it is shared; the number of a type's id, or in `(exact ..)`.
impl fmt::Display for HeapType {
    ghost output = { λ ty. Some (heap_text ty) };

    fn fmt<W: fmt::Write>(&self, f: &mut fmt::Formatter<W>) -> fmt::Result {
        match self {
            HeapType::Abstract(ty) => write!(f, "{ty}"),
            HeapType::Shared(ty) => write!(f, "(shared {ty})"),
            HeapType::Concrete(id) => write!(f, "{}", id.index()),
            HeapType::Exact(id) => write!(f, "(exact {})", id.index()),
        }
    }
}

/// Writes `(ref null ..)` or `(ref ..)`, with the heap type's text.
impl fmt::Display for RefType {
    ghost output = { λ ty. Some (reference_text ty) };

    fn fmt<W: fmt::Write>(&self, f: &mut fmt::Formatter<W>) -> fmt::Result {
        let heap_type = self.heap_type;
        if self.nullable {
            write!(f, "(ref null {heap_type})")
        } else {
            write!(f, "(ref {heap_type})")
        }
    }
}

/// Writes `i32`, `i64`, `f32`, `f64`, `v128`, or the reference type's text.
impl fmt::Display for ValType {
    ghost output = { λ ty. Some (value_text ty) };

    fn fmt<W: fmt::Write>(&self, f: &mut fmt::Formatter<W>) -> fmt::Result {
        match self {
            ValType::I32 => f.write_str("i32"),
            ValType::I64 => f.write_str("i64"),
            ValType::F32 => f.write_str("f32"),
            ValType::F64 => f.write_str("f64"),
            ValType::V128 => f.write_str("v128"),
            ValType::Ref(ty) => write!(f, "{ty}"),
        }
    }
}
