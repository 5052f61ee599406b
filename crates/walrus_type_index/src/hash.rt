//! Hashes of kinds, by which most types are told apart with no look at them.
//!
//! Equal kinds have equal hashes. No answer rests on more: how they spread is a matter of speed.
ghost use Rattle.std.specs.Prelude.{◌≡◌, ◌<◌, ◌^◌};
ghost use Rattle.walrus_items.specs.Items.{kind_of};
ghost use Rattle.walrus_items.specs.walrus_forms.Forms.{FunctionForm};
ghost use Rattle.walrus_type_index.specs.Places.{kinds_in, hashed_at};
ghost use Rattle.walrus_type_index.specs.Hashes.{next_first, next_second, next_hash, heap_number, ref_number, value_number, storage_number, values_hash, fields_hash, form_hash, hash_of, hash_at, plain_number};
ghost use Rattle.walrus_type_index.specs.Targets.{target_kind};

use crate::node::Hashed;
use crate::order::Target;
use walrus_items::Type;
use walrus_items::arena::{TombstoneArena, TypeId, TypeSpace};
use walrus_items::forms::{
    CompositeRecord, CompositeType, FieldType, GroupRecord, HeapType, RefType, StorageType,
    ValRecord, ValType,
};

// 2^64: a hash has two halves of 64 bits.
const HALF: u128 = 0x1_0000_0000_0000_0000;

// The prime of the hash FNV-1, the first half's factor. It is small, so that types that differ in an id alone stay in the order of these:
// a walk of the tree then goes through memory much as the types were added.
const FACTOR: u64 = 0x0100_0193;

// By how much the second factor of the second half is more than its first one: the golden ratio's bits, as good as any odd number.
const APART: u64 = 0x9e37_79b9_7f4a_7c15;

// The first half with one more number in it. It is linear, so that whoever knows the factor can make types that all have one.
fn next_first(half: u64, number: u64) -> u64
    ensures { result ≡ next_first half number }
{
    half.wrapping_mul(FACTOR).wrapping_add(number)
}

// The second half with one more number in it. It goes by a square, for whose like no way is known to many types of one half.
fn next_second(half: u64, number: u64) -> u64
    ensures { result ≡ next_second half number }
{
    let sum = half.wrapping_add(number);
    let product = sum as u128 * sum.wrapping_add(APART) as u128;
    ((product >> 64) as u64).wrapping_add((product % HALF) as u64)
}

// The hash with one more number in it.
fn next_hash(hash: u128, number: u64) -> u128
    ensures { result ≡ next_hash hash number }
{
    let first = next_first((hash >> 64) as u64, number);
    let second = next_second((hash % HALF) as u64, number);
    first as u128 * HALF + second as u128
}

// How many numbers heap types have: one for each abstract type, one for each that is shared, and one for each id.
const HEAP_NUMBERS: u64 = (1 << 32) + 24;

fn heap_number(ty: &HeapType) -> u64
    ensures number { result ≡ heap_number ty.now }
    ensures small { result < 2 ^ 33 }
{
    match ty {
        HeapType::Abstract(ty) => 8 + *ty as u64,
        HeapType::Shared(ty) => 20 + *ty as u64,
        HeapType::Concrete(id) | HeapType::Exact(id) => 32 + u64::from(id.number()),
    }
}

fn ref_number(ty: &RefType) -> u64
    ensures { result ≡ ref_number ty.now }
{
    let number = heap_number(&ty.heap_type);
    if ty.nullable {
        number
    } else {
        number + HEAP_NUMBERS
    }
}

// Of a number's or a vector's type. It stands apart, so that it is one look-up, and a list of types goes without jumps.
#[inline(never)]
fn plain_number(ty: &ValType) -> u64
    ensures { result ≡ plain_number ty.now }
{
    match ty {
        ValType::I32 => 1,
        ValType::I64 => 2,
        ValType::F32 => 3,
        ValType::F64 => 4,
        ValType::V128 => 5,
        ValType::Ref(_) => 0,
    }
}

fn value_number(ty: &ValType) -> u64
    ensures { result ≡ value_number ty.now }
{
    match ty {
        ValType::Ref(ty) => ref_number(ty),
        plain => plain_number(plain),
    }
}

fn storage_number(ty: &StorageType) -> u64
    ensures { result ≡ storage_number ty.now }
{
    match ty {
        StorageType::I8 => 6,
        StorageType::I16 => 7,
        StorageType::Val(ty) => value_number(ty),
    }
}

// The hash with these value types in it, and with their end.
fn values_hash(start: u128, values: &[ValType]) -> u128
    ensures { result ≡ values_hash start values.now }
{
    let mut hash = start;
    for value in values {
        hash = next_hash(hash, value_number(value));
    }
    next_hash(hash, 0)
}

fn fields_hash(start: u128, fields: &[FieldType]) -> u128
    ensures { result ≡ fields_hash start fields.now }
{
    let mut hash = start;
    for field in fields {
        hash = next_hash(hash, storage_number(&field.element_type));
    }
    hash
}

fn function_hash(params: &[ValType], results: &[ValType]) -> u128
    ensures { result ≡ form_hash (FunctionForm params.now results.now) }
{
    values_hash(values_hash(0, params), results)
}

/// The hash of a type's kind.
pub fn type_hash(ty: &Type) -> u128
    ensures { result ≡ hash_of (kind_of ty.now) }
{
    match ty.kind() {
        CompositeType::Function(own) => function_hash(own.params(), own.results()),
        CompositeType::Struct(own) => fields_hash(HALF, own.fields.as_slice()),
        CompositeType::Array(own) => next_hash(2 * HALF, storage_number(&own.field.element_type)),
    }
}

/// The hash of what is looked for.
pub(crate) fn target_hash(target: Target<'_>) -> u128
    ensures { result ≡ hash_of (target_kind target.entry) }
{
    match target {
        Target::Like(ty) => type_hash(ty),
        Target::Function(params, results) => function_hash(params, results),
        Target::Entry(results) => function_hash(&[], results),
    }
}

fn hash_at(types: &TombstoneArena<Type, TypeSpace>, id: TypeId) -> u128
    ensures { result ≡ hash_at (kinds_in types.now.slots) id }
{
    match types.get(id) {
        Some(ty) => type_hash(ty),
        None => 0,
    }
}

/// The id with the hash of its type.
pub(crate) fn hashed(types: &TombstoneArena<Type, TypeSpace>, id: TypeId) -> Hashed
    ensures { result ≡ hashed_at (kinds_in types.now.slots) id }
{
    let hash = hash_at(types, id);
    Hashed { hash, id }
}

// As `plain_number`, of a record. No answer rests on it.
#[inline(always)]
fn record_number(ty: &ValRecord) -> u64 {
    match ty {
        ValRecord::I32 => 1,
        ValRecord::I64 => 2,
        ValRecord::F32 => 3,
        ValRecord::F64 => 4,
        ValRecord::V128 => 5,
        ValRecord::Ref(_) => 0,
    }
}

fn records_hash(start: u128, values: &[ValRecord]) -> u128 {
    let mut hash = start;
    for value in values {
        hash = next_hash(hash, record_number(value));
    }
    next_hash(hash, 0)
}

/// The hash by which the first type of a group will be looked up, where it is a function type that names no type. No answer rests on it.
pub fn group_hash(group: &GroupRecord) -> u128 {
    let Some(first) = group.types.first() else {
        return 0;
    };
    match &first.kind {
        CompositeRecord::Function { params, results } => {
            let hash = records_hash(0, params.as_slice());
            records_hash(hash, results.as_slice())
        }
        _ => 0,
    }
}
