//! The forms of instructions: their names and numbers, and the types, parts and clauses that words of rows stand for.
use std::alloc::{AllocError, Global};
use test_words::{cut, lower, place};
use walrus_arena::{Id, InstrSeqId};
use walrus_instr::{InstrSeqType, LegacyCatch, TryTableCatch};
use walrus_types::{HeapType, RefType, ValType};

// Types that have names in the rows. Each counts as 1000 and its place.
const TYPES: &str = "funcref externref i31ref anyref eqref exact4 i32 i64 f32 f64";

/// The number of a word: in decimal, with those below zero from 2^64 down, or that of a type's name; 0 of no word.
pub fn number(word: &[u8]) -> u64 {
    let named = place(TYPES.as_bytes(), word);
    if named < 100 {
        1000 + u64::from(named)
    } else {
        test_words::number(word)
    }
}

/// The number of an instruction's form, and three numbers of its fields in their order; 0 where it has fewer.
pub type Row = (u32, u64, u64, u64);

// By the calls that add them, with a word for the operator or kind of the tests. The number of a form is its place in its line, and 100 for each
// line before.
const FORMS: &str =
    "unreachable br br_if br_on_null br_on_non_null return throw throw_ref rethrow br_on_cast br_on_cast_fail
call call_indirect call_ref return_call return_call_indirect return_call_ref
drop select unop_popcnt binop_rotr tern_op_nmadd i64_add128 i64_sub128 v128_bitselect i8x16_swizzle i8x16_shuffle
i32_const i64_const f32_const f64_const v128_const
local_get local_set local_tee global_get global_set
table_get table_set table_grow table_size table_fill table_init elem_drop table_copy
load_f64 store_v128 load_simd_lane memory_size memory_grow memory_init data_drop memory_copy memory_fill
atomic_rmw_xchg cmpxchg_i64_16 atomic_notify atomic_wait_64 atomic_fence
ref_null ref_is_null ref_func ref_eq ref_as_non_null ref_test ref_cast ref_i31 i31_get_s i31_get_u any_convert_extern extern_convert_any
struct_new struct_new_default struct_get struct_get_s struct_get_u struct_set
array_new array_new_default array_new_fixed array_new_data array_new_elem array_init_data array_init_elem array_get array_get_s array_get_u array_set array_len array_fill array_copy
block loop if_else try try_table br_table";

fn form_of(name: &[u8]) -> u32 {
    let mut rest = FORMS.as_bytes();
    for line in 0..12 {
        let (names, more) = cut(rest, b'\n');
        let at = place(names, name);
        if at < 100 {
            return 100 * line + at;
        }
        rest = more;
    }
    1200
}

/// What an instruction of this word has: a name, and numbers behind commas.
pub fn row_of(word: &[u8]) -> Row {
    let (name, rest) = cut(word, b',');
    let (first, rest) = cut(rest, b',');
    let (second, third) = cut(rest, b',');
    (form_of(name), number(first), number(second), number(third))
}

/// The id of this number. It has no contract, so that no caller's proof computes what it makes.
pub fn id<S>(number: u64) -> Id<S> {
    Id::from_index((number % 0x1_0000_0000) as usize)
}

/// The type of a named number, else a nullable reference to the type of this id.
pub fn ref_type(number: u64) -> RefType {
    match number {
        1000 => RefType::FUNCREF,
        1001 => RefType::EXTERNREF,
        1002 => RefType::I31REF,
        1003 => RefType::ANYREF,
        1004 => RefType::EQREF,
        1005 => RefType {
            nullable: false,
            heap_type: HeapType::Exact(id(4)),
        },
        _ => RefType {
            nullable: true,
            heap_type: HeapType::Concrete(id(number)),
        },
    }
}

pub fn val_type(number: u64) -> ValType {
    match number {
        1006 => ValType::I32,
        1007 => ValType::I64,
        1008 => ValType::F32,
        1009 => ValType::F64,
        _ => ValType::Ref(ref_type(number)),
    }
}

/// A block without parameters and results.
pub const PLAIN: InstrSeqType = InstrSeqType::Simple(None);

/// The block type of a word: `-` of none, `#` and the number of a type, or one result.
pub fn block_type(word: &[u8]) -> InstrSeqType {
    let (before, index) = cut(word, b'#');
    if before.is_empty() {
        InstrSeqType::MultiValue(id(number(index)))
    } else if before == "-".as_bytes() {
        PLAIN
    } else {
        InstrSeqType::Simple(Some(val_type(number(word))))
    }
}

/// What an instruction has a list of.
pub trait Listed: Copy + PartialEq {
    /// The item of a word.
    fn of(word: &[u8]) -> Self;
}

impl Listed for InstrSeqId {
    fn of(word: &[u8]) -> Self {
        id(number(word))
    }
}

impl Listed for LegacyCatch {
    fn of(word: &[u8]) -> Self {
        let (kind, rest) = cut(word, b':');
        let (first, second) = cut(rest, b':');
        match place("catch all".as_bytes(), kind) {
            0 => LegacyCatch::Catch {
                tag: id(number(first)),
                handler: id(number(second)),
            },
            1 => LegacyCatch::CatchAll {
                handler: id(number(first)),
            },
            _ => LegacyCatch::Delegate {
                relative_depth: lower(number(first)),
            },
        }
    }
}

impl Listed for TryTableCatch {
    fn of(word: &[u8]) -> Self {
        let (kind, rest) = cut(word, b':');
        let (first, second) = cut(rest, b':');
        match place("catch ref all".as_bytes(), kind) {
            0 => TryTableCatch::Catch {
                tag: id(number(first)),
                label: id(number(second)),
            },
            1 => TryTableCatch::CatchRef {
                tag: id(number(first)),
                label: id(number(second)),
            },
            2 => TryTableCatch::CatchAll {
                label: id(number(first)),
            },
            _ => TryTableCatch::CatchAllRef {
                label: id(number(first)),
            },
        }
    }
}

/// The items of the words between commas.
pub fn list<T: Listed>(alloc: Global, text: &[u8]) -> Result<Vec<T>, AllocError> {
    let mut items = Vec::new(alloc);
    let mut rest = text;
    for _ in 0..text.len() {
        if rest.is_empty() {
            return Ok(items);
        }
        let (word, more) = cut(rest, b',');
        items.push(T::of(word))?;
        rest = more;
    }
    Ok(items)
}

/// Whether these are just the items of the words between commas.
pub fn is_list<T: Listed>(items: &[T], text: &[u8]) -> bool {
    let mut rest = text;
    let mut agree = true;
    for item in items {
        let (word, more) = cut(rest, b',');
        agree &= *item == T::of(word);
        rest = more;
    }
    agree && rest.is_empty()
}
