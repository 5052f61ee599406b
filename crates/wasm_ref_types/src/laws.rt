//! Laws: functions with next to nothing to do, whose contracts hold of all values.

ghost use Rattle.std.specs.Prelude.{◌≡◌, ◌↔◌, [], ◌∷◌, true, false, Some};
ghost use Rattle.std.specs.Ordering.{nat_cmp, is_eq};
ghost use Rattle.wasm_ref_types.specs.declared.heap.AbstractHeapType.{AbstractHeapType};
ghost use Rattle.wasm_ref_types.specs.declared.heap.AbstractHeapType.TheVariants as kinds;
ghost use Rattle.wasm_ref_types.specs.declared.index.UnpackedIndex.{UnpackedIndex};
ghost use Rattle.wasm_ref_types.specs.contracts.heap.AbstractHeapTypeOrd.TheImpl.{ghosts as abstract_ord};
ghost use Rattle.wasm_ref_types.specs.contracts.index.UnpackedIndexOrd.TheImpl.{ghosts as unpacked_ord};
ghost use Rattle.wasm_ref_types.specs.contracts.reference.RefTypeHash.TheImpl.{ghosts as reference_hash};
ghost use Rattle.wasm_ref_types.specs.Heaps.{rank};
ghost use Rattle.wasm_ref_types.specs.Indices.{index_cmp, index_eq};
ghost use Rattle.wasm_ref_types.specs.Reference.{Reference, reference_cmp, reference_eq};
ghost use Rattle.wasm_ref_types.specs.declared.heap.HeapType.TheVariants.{Abstract};
ghost use Rattle.wasm_reader.specs.wasm_features.declared.WasmFeatures.{WasmFeatures};
ghost use Rattle.wasm_reader.specs.Laws.{IsFinal, EndsEarly, TakesSpelled, IsPrefixFree};
ghost use Rattle.wasm_ref_types.specs.ReadTypes.{abstract_at, heap_at, reference_at, value_at};
ghost use Rattle.wasm_ref_types.specs.TypeSpellings.{SpellsAbstract, SpellsHeap, SpellsReference, SpellsValue, IsWrittenAbstract, IsWritten, IsWrittenValue, ReadsWritten};
ghost use Rattle.wasm_ref_types.specs.Subtypes.{IsBelow, IsPartialOrder};
ghost use Rattle.wasm_ref_types.specs.Constants.{nullable_types, non_null_types, value_types};

use crate::heap::HeapType;
use crate::index::PackedIndex;
use crate::reference::RefType;
use crate::value::ValType;

/// The nullable constants of [`RefType`], in the order of the abstract types: each is the type of its name.
pub fn nullable_constants() -> [RefType; 14]
    ensures { result ≡ nullable_types }
{
    [
        RefType::FUNCREF,
        RefType::EXTERNREF,
        RefType::ANYREF,
        RefType::NULLREF,
        RefType::NULLEXTERNREF,
        RefType::NULLFUNCREF,
        RefType::EQREF,
        RefType::STRUCTREF,
        RefType::ARRAYREF,
        RefType::I31REF,
        RefType::EXNREF,
        RefType::NULLEXNREF,
        RefType::CONTREF,
        RefType::NULLCONTREF,
    ]
}

/// The constants of [`RefType`] without null, in the order of the abstract types: each is the type of its name.
pub fn non_null_constants() -> [RefType; 14]
    ensures { result ≡ non_null_types }
{
    [
        RefType::FUNC,
        RefType::EXTERN,
        RefType::ANY,
        RefType::NONE,
        RefType::NOEXTERN,
        RefType::NOFUNC,
        RefType::EQ,
        RefType::STRUCT,
        RefType::ARRAY,
        RefType::I31,
        RefType::EXN,
        RefType::NOEXN,
        RefType::CONT,
        RefType::NOCONT,
    ]
}

/// The constants of [`ValType`]: `funcref`, `externref`, `exnref` and `contref`.
pub fn value_constants() -> [ValType; 4]
    ensures { result ≡ value_types }
{
    [
        ValType::FUNCREF,
        ValType::EXTERNREF,
        ValType::EXNREF,
        ValType::CONTREF,
    ]
}

/// The constants of [`HeapType`]: `func` and `extern`.
pub fn heap_constants() -> [HeapType; 2]
    ensures { result ≡ Abstract false kinds.Func ∷ Abstract false kinds.Extern ∷ [] }
{
    [HeapType::FUNC, HeapType::EXTERN]
}

/// `is_subtype_of` is a partial order.
pub fn subtypes_are_ordered()
    ensures { IsPartialOrder IsBelow }
{}

/// What is read for a type, the end of the input aside, is final whatever bytes follow; the hint is exact.
pub fn types_are_final()
    ensures abstract_type { (features : WasmFeatures) → IsFinal (abstract_at features) }
    ensures heap_type { (features : WasmFeatures) → IsFinal (heap_at features) }
    ensures reference_type { (features : WasmFeatures) → IsFinal (reference_at features) }
    ensures value_type { (features : WasmFeatures) → IsFinal (value_at features) }
{}

/// A proper front of a type's bytes is answered with the end of the input.
pub fn fronts_of_types_end_early()
    ensures abstract_type { (features : WasmFeatures) → EndsEarly (abstract_at features) }
    ensures heap_type { (features : WasmFeatures) → EndsEarly (heap_at features) }
    ensures reference_type { (features : WasmFeatures) → EndsEarly (reference_at features) }
    ensures value_type { (features : WasmFeatures) → EndsEarly (value_at features) }
{}

/// Bytes are read as a type exactly if they spell it.
pub fn spelled_types_are_read()
    ensures abstract_type { (features : WasmFeatures) → TakesSpelled (abstract_at features) (SpellsAbstract features) }
    ensures heap_type { (features : WasmFeatures) → TakesSpelled (heap_at features) (SpellsHeap features) }
    ensures reference_type { (features : WasmFeatures) → TakesSpelled (reference_at features) (SpellsReference features) }
    ensures value_type { (features : WasmFeatures) → TakesSpelled (value_at features) (SpellsValue features) }
{}

/// No spelling of a type is a proper front of another of its kind, and none has two values.
pub fn type_spellings_are_prefix_free()
    ensures abstract_type { (features : WasmFeatures) → IsPrefixFree (SpellsAbstract features) }
    ensures heap_type { (features : WasmFeatures) → IsPrefixFree (SpellsHeap features) }
    ensures reference_type { (features : WasmFeatures) → IsPrefixFree (SpellsReference features) }
    ensures value_type { (features : WasmFeatures) → IsPrefixFree (SpellsValue features) }
{}

/// With garbage-collected types on, each type that files have is read from some bytes: all but continuations, exact types,
/// indices other than those of a module below 2^20, and shared types where their feature is off.
pub fn written_types_are_read()
    ensures abstract_type { ReadsWritten abstract_at (λ _ ty. IsWrittenAbstract ty) }
    ensures heap_type { ReadsWritten heap_at IsWritten }
    ensures reference_type { ReadsWritten reference_at (λ features r. IsWritten features r.heap_type) }
    ensures value_type { ReadsWritten value_at IsWrittenValue }
{}

/// A reference type made of the nullability and the heap type of another is that one.
pub fn references_are_their_parts(ty: RefType) -> Option<RefType>
    ensures { result ≡ Some ty }
{
    RefType::new(ty.is_nullable(), ty.heap_type())
}

/// A packed index, unpacked and packed again, is that one.
pub fn packed_indices_unpack(index: PackedIndex) -> Option<PackedIndex>
    ensures { result ≡ Some index }
{
    index.unpack().pack()
}

/// Packed references are equal exactly if their nullability and heap type are, packed indices exactly if what they unpack to is.
pub fn packed_types_are_equal_as_plain_ones()
    ensures references { (a b : Reference) → (reference_eq a b ≡ true) ↔ (a ≡ b) }
    ensures indices { (a b : UnpackedIndex) → (index_eq a b ≡ true) ↔ (a ≡ b) }
{}

/// Packed indices have the order of what they unpack to, abstract heap types that of their places, and equal references are
/// those of which neither comes first; they hash alike.
pub fn orders_agree()
    ensures indices { (a b : UnpackedIndex) → unpacked_ord.cmp a b ≡ index_cmp a b }
    ensures abstract_types { (a b : AbstractHeapType) → abstract_ord.cmp a b ≡ nat_cmp (rank a) (rank b) }
    ensures references { (a b : Reference) → reference_eq a b ≡ is_eq (reference_cmp a b) }
    ensures hashes { (a b : Reference) → reference_eq a b ≡ true → reference_hash.hash_input a ≡ reference_hash.hash_input b }
{}
