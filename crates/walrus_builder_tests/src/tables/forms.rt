//! Forms as words: `func:i32,i64>f32` of parameters and results, `struct:i8*,7` of fields, `array:i16*` of one.

use crate::tables::values::{Word, list};
use crate::tables::words::are_ids;
use std::alloc::{AllocError, Global};
use std::mem::size_of;
use test_words::{are_shown, cut, head};
use walrus_arena::TypeId;
use walrus_forms::laws::reference_constants;
use walrus_forms::{
    AbstractHeapType, ArrayType, CompositeType, FieldType, FunctionType, HeapType, RefType,
    StorageType, StructType, ValType,
};

/// The function type of these parameters and results.
pub(crate) fn function(alloc: Global, args: &[u8]) -> Result<FunctionType, AllocError> {
    let (params, results) = cut(args, b'>');
    let params = list(alloc, params)?;
    Ok(FunctionType::new(params, list(alloc, results)?))
}

/// The form of a word.
pub(crate) fn form(alloc: Global, word: &[u8]) -> Result<CompositeType, AllocError> {
    let (_, args) = cut(word, b':');
    match head(word) {
        b'f' => Ok(CompositeType::Function(function(alloc, args)?)),
        b's' => {
            let fields = list(alloc, args)?;
            Ok(CompositeType::Struct(StructType { fields }))
        }
        _ => Ok(CompositeType::Array(ArrayType {
            field: FieldType::of(args),
        })),
    }
}

fn copies(alloc: Global, word: &[u8]) -> Result<bool, AllocError> {
    let copy = form(alloc, word)?.clone()?;
    let mut names = Vec::new(alloc);
    copy.push_names(&mut names)?;
    Ok(are_ids(names.as_slice(), b"2,5"))
}

// A form and its copy name the types 2 and 5.
#[test]
fn forms_are_copied(rt: HostRuntime) {
    for word in ["func:i64,2>5", "struct:i8*,2,5"] {
        assert!(rt; copies(rt.alloc(), word.as_bytes()) == Ok(true));
    }
}

// What types take in memory.
#[test]
fn types_are_compact(rt: HostRuntime) {
    let sizes = [
        (size_of::<HeapType>(), 8),
        (size_of::<RefType>(), 12),
        (size_of::<ValType>(), 16),
        (size_of::<Option<ValType>>(), 20),
        (size_of::<StorageType>(), 20),
        (size_of::<FieldType>(), 24),
        (size_of::<TypeId>(), 4),
        (size_of::<Option<TypeId>>(), 8),
    ];
    for (size, wanted) in sizes {
        assert!(rt; size == wanted);
    }
}

// The texts of types are those of the text format (Core Specification, text format: types).
#[test]
fn texts_of_types(rt: HostRuntime) {
    let texts =
        b"(ref null func);(ref null extern);(ref null any);(ref null none);(ref null noextern);(ref null nofunc);(ref null eq);(ref null struct);(ref null array);(ref null i31);(ref null exn)";
    assert!(rt; are_shown(rt.alloc(), &reference_constants(), texts));
    let id = TypeId::from_index(12);
    let values = [
        ValType::I32,
        ValType::I64,
        ValType::F32,
        ValType::F64,
        ValType::V128,
        ValType::Ref(RefType {
            nullable: false,
            heap_type: HeapType::Exact(id),
        }),
        ValType::Ref(RefType {
            nullable: true,
            heap_type: HeapType::Concrete(id),
        }),
        ValType::Ref(RefType {
            nullable: true,
            heap_type: HeapType::Shared(AbstractHeapType::NoExn),
        }),
    ];
    let texts = b"i32;i64;f32;f64;v128;(ref (exact 12));(ref null 12);(ref null (shared noexn))";
    assert!(rt; are_shown(rt.alloc(), &values, texts));
}
