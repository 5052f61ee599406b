//! Value types and fields as words, with ids or with indices: `i32`, `i64`, `f32`, `f64`, `v128`, for fields `i8` and `i16`, too, and for
//! references the name of a heap type or the number of a type. Behind that `!` says that null is none of its values, `=` that it is of the
//! type alone, without subtypes, and `*` that a field is mutable.

use crate::tables::words::number;
use std::alloc::{AllocError, Global};
use test_words::cut;
use walrus_arena::TypeId;
use walrus_forms::{
    AbstractHeapType, FieldRecord, FieldType, HeapRecord, HeapType, RefRecord, RefType,
    StorageRecord, StorageType, ValRecord, ValType,
};

// The plain types, and then those of `HEAPS`.
const NAMES: &str =
    "i32 i64 f32 f64 v128 i8 i16 func extern any none noextern nofunc eq struct array i31 exn noexn";

const HEAPS: [AbstractHeapType; 12] = [
    AbstractHeapType::Func,
    AbstractHeapType::Extern,
    AbstractHeapType::Any,
    AbstractHeapType::None,
    AbstractHeapType::NoExtern,
    AbstractHeapType::NoFunc,
    AbstractHeapType::Eq,
    AbstractHeapType::Struct,
    AbstractHeapType::Array,
    AbstractHeapType::I31,
    AbstractHeapType::Exn,
    AbstractHeapType::NoExn,
];

// What a word is made of.
#[derive(Clone, Copy)]
struct Parts {
    // The place of its name among `NAMES`, or 19 where it is a number.
    place: usize,
    number: u32,
    nullable: bool,
    exact: bool,
    mutable: bool,
}

fn place(name: &[u8]) -> usize {
    let mut rest = NAMES.as_bytes();
    for place in 0..19 {
        let (first, behind) = cut(rest, b' ');
        if first == name {
            return place;
        }
        rest = behind;
    }
    19
}

fn take_apart(word: &[u8]) -> Parts {
    let mut name = word;
    let mut parts = Parts {
        place: 0,
        number: number(word),
        nullable: true,
        exact: false,
        mutable: false,
    };
    for at in 0..word.len() {
        match word[at] {
            b'!' => parts.nullable = false,
            b'=' => parts.exact = true,
            b'*' => parts.mutable = true,
            _ => name = &word[..at + 1],
        }
    }
    parts.place = place(name);
    parts
}

fn abstract_type(place: usize) -> AbstractHeapType {
    HEAPS[place.saturating_sub(7) % 12]
}

fn heap_type(parts: Parts) -> HeapType {
    if parts.place < 19 {
        return HeapType::Abstract(abstract_type(parts.place));
    }
    let id = TypeId::from_index(parts.number as usize);
    if parts.exact {
        HeapType::Exact(id)
    } else {
        HeapType::Concrete(id)
    }
}

fn heap_record(parts: Parts) -> HeapRecord {
    if parts.place < 19 {
        HeapRecord::Abstract(abstract_type(parts.place))
    } else if parts.exact {
        HeapRecord::Exact(parts.number)
    } else {
        HeapRecord::Concrete(parts.number)
    }
}

/// What a word says.
pub(crate) trait Word {
    fn of(word: &[u8]) -> Self;
}

impl Word for ValType {
    fn of(word: &[u8]) -> Self {
        let parts = take_apart(word);
        match parts.place {
            0 => ValType::I32,
            1 => ValType::I64,
            2 => ValType::F32,
            3 => ValType::F64,
            4 => ValType::V128,
            _ => ValType::Ref(RefType {
                nullable: parts.nullable,
                heap_type: heap_type(parts),
            }),
        }
    }
}

impl Word for FieldType {
    fn of(word: &[u8]) -> Self {
        let parts = take_apart(word);
        let element_type = match parts.place {
            5 => StorageType::I8,
            6 => StorageType::I16,
            _ => StorageType::Val(ValType::of(word)),
        };
        FieldType {
            element_type,
            mutable: parts.mutable,
        }
    }
}

impl Word for ValRecord {
    fn of(word: &[u8]) -> Self {
        let parts = take_apart(word);
        match parts.place {
            0 => ValRecord::I32,
            1 => ValRecord::I64,
            2 => ValRecord::F32,
            3 => ValRecord::F64,
            4 => ValRecord::V128,
            _ => ValRecord::Ref(RefRecord {
                nullable: parts.nullable,
                heap_type: heap_record(parts),
            }),
        }
    }
}

impl Word for FieldRecord {
    fn of(word: &[u8]) -> Self {
        let parts = take_apart(word);
        let element_type = match parts.place {
            5 => StorageRecord::I8,
            6 => StorageRecord::I16,
            _ => StorageRecord::Val(ValRecord::of(word)),
        };
        FieldRecord {
            element_type,
            mutable: parts.mutable,
        }
    }
}

/// What the words of a list say, with a comma between them.
pub(crate) fn list<T: Word + Drop>(alloc: Global, text: &[u8]) -> Result<Vec<T>, AllocError> {
    let mut items = Vec::new(alloc);
    let mut rest = text;
    for _ in 0..text.len() {
        if rest.is_empty() {
            break;
        }
        let (word, behind) = cut(rest, b',');
        rest = behind;
        items.push(T::of(word))?;
    }
    Ok(items)
}

/// Whether the words of a list say just these.
pub(crate) fn are<T: Word + PartialEq + Drop>(items: &[T], text: &[u8]) -> bool {
    let mut agree = true;
    let mut rest = text;
    for item in items {
        let (word, behind) = cut(rest, b',');
        rest = behind;
        agree &= !word.is_empty() && *item == T::of(word);
    }
    agree && rest.is_empty()
}
