//! What types are in words: as in the Core Specification's text format, without its parentheses (`null func` is
//! `(ref null func)`, `ref 3` is `(ref 3)`).

use crate::readers::told::Told;
use std::alloc::AllocError;
use test_words::{Words, nth};
use wasm_composite_types::{
    ArrayType, CompositeInnerType, CompositeType, FieldType, FuncType, StorageType, StructType,
};
use wasm_ref_types::{AbstractHeapType, HeapType, PackedIndex, RefType, UnpackedIndex, ValType};
use wasm_types::{RecGroup, SubType};

// In the order of the arms below.
const ABSTRACT_TYPES: &str =
    "func extern any none noextern nofunc eq struct array i31 exn noexn cont nocont";

fn place_of(ty: AbstractHeapType) -> u32 {
    match ty {
        AbstractHeapType::Func => 0,
        AbstractHeapType::Extern => 1,
        AbstractHeapType::Any => 2,
        AbstractHeapType::None => 3,
        AbstractHeapType::NoExtern => 4,
        AbstractHeapType::NoFunc => 5,
        AbstractHeapType::Eq => 6,
        AbstractHeapType::Struct => 7,
        AbstractHeapType::Array => 8,
        AbstractHeapType::I31 => 9,
        AbstractHeapType::Exn => 10,
        AbstractHeapType::NoExn => 11,
        AbstractHeapType::Cont => 12,
        AbstractHeapType::NoCont => 13,
    }
}

impl Told for AbstractHeapType {
    fn tell(&self, words: &mut Words<'_>) {
        words.tell(nth(ABSTRACT_TYPES.as_bytes(), place_of(*self)));
    }
}

// The number of a type in a module alone.
impl Told for UnpackedIndex {
    fn tell(&self, words: &mut Words<'_>) {
        match *self {
            UnpackedIndex::Module(number) => number.tell(words),
            UnpackedIndex::RecGroup(number) => {
                words.tell(b"rec-group");
                number.tell(words);
            }
            UnpackedIndex::Id(id) => {
                words.tell(b"id");
                id.index().tell(words);
            }
        }
    }
}

impl Told for HeapType {
    fn tell(&self, words: &mut Words<'_>) {
        match *self {
            HeapType::Abstract { shared, ty } => {
                if shared {
                    words.tell(b"shared");
                }
                ty.tell(words);
            }
            HeapType::Concrete(index) => index.tell(words),
            HeapType::Exact(index) => {
                words.tell(b"exact");
                index.tell(words);
            }
        }
    }
}

// The index that the type names, packed.
fn index_of(ty: HeapType) -> Option<PackedIndex> {
    match ty {
        HeapType::Abstract { .. } => None,
        HeapType::Concrete(index) | HeapType::Exact(index) => index.pack(),
    }
}

// It is the type that is made of its parts.
impl Told for RefType {
    fn tell(&self, words: &mut Words<'_>) {
        let ty = self.heap_type();
        if self.is_nullable() {
            words.tell(b"null");
        } else {
            words.tell(b"ref");
        }
        ty.tell(words);
        words.ask(RefType::new(self.is_nullable(), ty) == Some(*self));
        words.ask(self.type_index() == index_of(ty));
    }
}

// In the order of the arms below.
const NUMBER_TYPES: &str = "i32 i64 f32 f64 v128";

fn tell_number_type(number: u32, words: &mut Words<'_>) {
    words.tell(nth(NUMBER_TYPES.as_bytes(), number));
}

impl Told for ValType {
    fn tell(&self, words: &mut Words<'_>) {
        match self {
            ValType::I32 => tell_number_type(0, words),
            ValType::I64 => tell_number_type(1, words),
            ValType::F32 => tell_number_type(2, words),
            ValType::F64 => tell_number_type(3, words),
            ValType::V128 => tell_number_type(4, words),
            ValType::Ref(ty) => ty.tell(words),
        }
    }
}

impl Told for StorageType {
    fn tell(&self, words: &mut Words<'_>) {
        match self {
            StorageType::I8 => words.tell(b"i8"),
            StorageType::I16 => words.tell(b"i16"),
            StorageType::Val(ty) => ty.tell(words),
        }
    }
}

impl Told for FieldType {
    fn tell(&self, words: &mut Words<'_>) {
        if self.mutable {
            words.tell(b"mut");
        } else {
            words.tell(b"const");
        }
        self.element_type.tell(words);
    }
}

impl Told for ArrayType {
    fn tell(&self, words: &mut Words<'_>) {
        self.0.tell(words);
    }
}

/// Whether there is a copy, which is as the value.
pub fn is_copy<T>(copy: Result<T, AllocError>, value: &T) -> bool
where
    T: PartialEq + Drop,
{
    match copy {
        Ok(copy) => copy == *value,
        Err(_) => false,
    }
}

fn tell_values(types: &[ValType], words: &mut Words<'_>) {
    for ty in types {
        ty.tell(words);
    }
}

impl Told for FuncType {
    fn tell(&self, words: &mut Words<'_>) {
        words.tell(b"param");
        tell_values(self.params(), words);
        words.tell(b"result");
        tell_values(self.results(), words);
        words.ask(is_copy(self.clone(), self));
    }
}

impl Told for StructType {
    fn tell(&self, words: &mut Words<'_>) {
        words.tell(b"struct");
        for field in self.fields.as_slice() {
            words.tell(b"field");
            field.tell(words);
        }
        words.ask(is_copy(self.clone(), self));
    }
}

impl Told for CompositeType {
    fn tell(&self, words: &mut Words<'_>) {
        if self.shared {
            words.tell(b"shared");
        }
        match &self.inner {
            CompositeInnerType::Func(_) => {
                words.tell(b"func");
                self.unwrap_func().tell(words);
            }
            CompositeInnerType::Array(_) => {
                words.tell(b"array");
                self.unwrap_array().tell(words);
            }
            CompositeInnerType::Struct(_) => self.unwrap_struct().tell(words),
            CompositeInnerType::Cont(ty) => {
                words.tell(b"cont");
                ty.0.unpack().tell(words);
            }
        }
        words.ask(is_copy(self.inner.clone(), &self.inner));
        words.ask(is_copy(self.clone(), self));
    }
}

impl Told for SubType {
    fn tell(&self, words: &mut Words<'_>) {
        if self.is_final {
            words.tell(b"final");
        } else {
            words.tell(b"open");
        }
        if let Some(index) = self.supertype_idx {
            words.tell(b"sub");
            index.unpack().tell(words);
        }
        self.composite_type.tell(words);
        words.ask(is_copy(self.clone(), self));
    }
}

// `rec` and a number of types is a group with a mark.
impl Told for RecGroup {
    fn tell(&self, words: &mut Words<'_>) {
        if self.is_explicit_rec_group() {
            words.tell(b"rec");
            words.tell_number(self.types().len() as i128);
        } else {
            words.tell(b"single");
            words.ask(self.types().len() == 1);
        }
        for ty in self.types() {
            ty.tell(words);
        }
    }
}
