//! Steps over types.

use crate::readers::references::constant;
use crate::readers::told::{Told, tell};
use std::alloc::Global;
use test_words::{Words, place};
use wasm_composite_types::{
    ArrayType, CompositeType, FieldType, FuncType, StorageType, StructType,
};
use wasm_reader::{BinaryReader, FromReader, Result};
use wasm_ref_types::{AbstractHeapType, HeapType, RefType, ValType};
use wasm_types::{RecGroup, SubType};

// The constant of this name.
fn tell_constant(read: Result<RefType>, words: &mut Words<'_>) {
    match read {
        Ok(ty) => {
            let wanted = constant(words);
            words.ask(ty == wanted);
        }
        Err(_) => words.ask(false),
    }
}

// Whether it is packed, and the value that it is unpacked to.
fn tell_unpacked(read: Result<StorageType>, words: &mut Words<'_>) {
    match read {
        Ok(ty) => {
            words.tell_flag(ty.is_packed());
            ty.unpack().tell(words);
        }
        Err(_) => words.ask(false),
    }
}

// Whether a first type is below a second one.
fn tell_below(
    small: Result<AbstractHeapType>,
    large: Result<AbstractHeapType>,
    words: &mut Words<'_>,
) {
    match (small, large) {
        (Ok(small), Ok(large)) => words.tell_flag(small.is_subtype_of(large)),
        _ => words.ask(false),
    }
}

fn tell_order<T: PartialOrd>(first: &T, second: &T, words: &mut Words<'_>) {
    if *first == *second {
        words.tell(b"=");
    } else if *first < *second {
        words.tell(b"<");
    } else {
        words.ask(false);
    }
}

fn tell_order_of<T>(first: Result<T>, second: Result<T>, words: &mut Words<'_>)
where
    T: PartialOrd + Drop,
{
    match (first, second) {
        (Ok(first), Ok(second)) => tell_order(&first, &second, words),
        _ => words.ask(false),
    }
}

// How a first value compares with a second one.
fn read_order<'a, T>(alloc: Global, reader: &mut BinaryReader<'a>, words: &mut Words<'_>)
where
    T: FromReader<'a> + PartialOrd + Drop,
{
    let first = reader.read::<T>(alloc);
    let second = reader.read::<T>(alloc);
    tell_order_of(first, second, words);
}

fn read<'a, T>(alloc: Global, reader: &mut BinaryReader<'a>, words: &mut Words<'_>)
where
    T: FromReader<'a> + Told + Drop,
{
    tell(reader.read::<T>(alloc), words);
}

// In the order of the arms below.
const SIMPLE: &str = "abstract heap reference value storage field array";

/// Reads a type that takes no memory, if the step does, and says so.
pub fn read_simple(
    alloc: Global,
    reader: &mut BinaryReader<'_>,
    step: &[u8],
    words: &mut Words<'_>,
) -> bool {
    match place(SIMPLE.as_bytes(), step) {
        0 => read::<AbstractHeapType>(alloc, reader, words),
        1 => read::<HeapType>(alloc, reader, words),
        2 => read::<RefType>(alloc, reader, words),
        3 => read::<ValType>(alloc, reader, words),
        4 => read::<StorageType>(alloc, reader, words),
        5 => read::<FieldType>(alloc, reader, words),
        6 => read::<ArrayType>(alloc, reader, words),
        _ => return false,
    }
    true
}

// In the order of the arms below.
const TYPES: &str = "function structure composite subtype group";

/// Reads a type or a group of types, if the step does, and says so.
pub fn read_type(
    alloc: Global,
    reader: &mut BinaryReader<'_>,
    step: &[u8],
    words: &mut Words<'_>,
) -> bool {
    match place(TYPES.as_bytes(), step) {
        0 => read::<FuncType>(alloc, reader, words),
        1 => read::<StructType>(alloc, reader, words),
        2 => read::<CompositeType>(alloc, reader, words),
        3 => read::<SubType>(alloc, reader, words),
        4 => read::<RecGroup>(alloc, reader, words),
        _ => return false,
    }
    true
}

// In the order of the arms below.
const CALLS: &str = "constant unpacked below composites subtypes groups";

/// Compares what it reads, if the step does, and says so.
pub fn compare(
    alloc: Global,
    reader: &mut BinaryReader<'_>,
    step: &[u8],
    words: &mut Words<'_>,
) -> bool {
    match place(CALLS.as_bytes(), step) {
        0 => tell_constant(reader.read(alloc), words),
        1 => tell_unpacked(reader.read(alloc), words),
        2 => tell_below(reader.read(alloc), reader.read(alloc), words),
        3 => read_order::<CompositeType>(alloc, reader, words),
        4 => read_order::<SubType>(alloc, reader, words),
        5 => read_order::<RecGroup>(alloc, reader, words),
        _ => return false,
    }
    true
}
