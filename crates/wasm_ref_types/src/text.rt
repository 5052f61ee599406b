//! The texts of types (Core Specification, text format: types).

ghost use Rattle.std.specs.Prelude.{◌≡◌, IfOk, Some, string_bytes};
ghost use Rattle.wasm_ref_types.specs.Indices.{number_of};
ghost use Rattle.wasm_ref_types.specs.Texts.{abstract_text, heap_text, reference_text, value_text};

use crate::heap::{AbstractHeapType, HeapType};
use crate::index::UnpackedIndex;
use crate::reference::RefType;
use crate::value::ValType;
use std::alloc::{AllocError, Global};
use std::fmt;

impl AbstractHeapType {
    fn name(&self) -> &'static str
        ensures { result.now ≡ abstract_text self.now }
    {
        match self {
            AbstractHeapType::Func => "func",
            AbstractHeapType::Extern => "extern",
            AbstractHeapType::Any => "any",
            AbstractHeapType::None => "none",
            AbstractHeapType::NoExtern => "noextern",
            AbstractHeapType::NoFunc => "nofunc",
            AbstractHeapType::Eq => "eq",
            AbstractHeapType::Struct => "struct",
            AbstractHeapType::Array => "array",
            AbstractHeapType::I31 => "i31",
            AbstractHeapType::Exn => "exn",
            AbstractHeapType::NoExn => "noexn",
            AbstractHeapType::Cont => "cont",
            AbstractHeapType::NoCont => "nocont",
        }
    }
}

impl UnpackedIndex {
    fn number(&self) -> u32
        ensures { result ≡ number_of self.now }
    {
        match *self {
            UnpackedIndex::Module(index) | UnpackedIndex::RecGroup(index) => index,
            UnpackedIndex::Id(id) => id.index(),
        }
    }
}

impl RefType {
    /// The type's text, which is also what Display writes.
    ///
    /// # Errors
    ///
    /// Want of memory.
    pub fn wat(&self, alloc: Global) -> Result<String, AllocError>
        ensures { IfOk result (λ text. string_bytes text ≡ reference_text self.now) }
    {
        format!(in alloc; "{self}")
    }
}

/// Writes the type's name, as `func`.
impl fmt::Display for AbstractHeapType {
    ghost output = { λ ty. Some (abstract_text ty) };

    fn fmt<W: fmt::Write>(&self, f: &mut fmt::Formatter<W>) -> fmt::Result {
        f.write_str(self.name())
    }
}

/// Writes an abstract type's name, or in `(shared ..)`; the number of an index, or in `(exact ..)`.
impl fmt::Display for HeapType {
    ghost output = { λ ty. Some (heap_text ty) };

    fn fmt<W: fmt::Write>(&self, f: &mut fmt::Formatter<W>) -> fmt::Result {
        match self {
            HeapType::Abstract { shared: false, ty } => write!(f, "{ty}"),
            HeapType::Abstract { shared: true, ty } => write!(f, "(shared {ty})"),
            HeapType::Concrete(index) => write!(f, "{}", index.number()),
            HeapType::Exact(index) => write!(f, "(exact {})", index.number()),
        }
    }
}

/// Writes `(ref null ..)` or `(ref ..)`, with the heap type's text.
impl fmt::Display for RefType {
    ghost output = { λ ty. Some (reference_text ty) };

    fn fmt<W: fmt::Write>(&self, f: &mut fmt::Formatter<W>) -> fmt::Result {
        let heap_type = self.heap_type();
        if self.is_nullable() {
            write!(f, "(ref null {heap_type})")
        } else {
            write!(f, "(ref {heap_type})")
        }
    }
}

/// Writes `i32`, `i64`, `f32`, `f64`, `v128`, or the reference type's text.
impl fmt::Display for ValType {
    ghost output = { λ ty. Some (value_text ty) };

    fn fmt<W: fmt::Write>(&self, f: &mut fmt::Formatter<W>) -> fmt::Result {
        match self {
            ValType::I32 => f.write_str("i32"),
            ValType::I64 => f.write_str("i64"),
            ValType::F32 => f.write_str("f32"),
            ValType::F64 => f.write_str("f64"),
            ValType::V128 => f.write_str("v128"),
            ValType::Ref(ty) => write!(f, "{ty}"),
        }
    }
}

/// Writes what Display writes.
impl fmt::Debug for RefType {
    ghost debug_output = { λ ty. Some (reference_text ty) };

    fn fmt<W: fmt::Write>(&self, f: &mut fmt::Formatter<W>) -> fmt::Result {
        fmt::Display::fmt(self, f)
    }
}

/// Writes what Display writes.
impl fmt::Debug for ValType {
    ghost debug_output = { λ ty. Some (value_text ty) };

    fn fmt<W: fmt::Write>(&self, f: &mut fmt::Formatter<W>) -> fmt::Result {
        fmt::Display::fmt(self, f)
    }
}
