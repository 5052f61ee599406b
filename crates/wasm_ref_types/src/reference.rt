//! Reference types (Core Specification, types: reference types).

ghost use Rattle.std.specs.Prelude.{◌≡◌, ◌&&◌, ◌==◌, ◌<◌, ◌/◌, ◌%◌, ◌↔◌, not, true, false, ℕ, IsSome, IfSome, option_map};
ghost use Rattle.std.proofs.Common.{rules};
ghost use Rattle.std.specs.Cmp.{partial_order_from_own_ties, partial_order_from_total, partial_equiv_from_equiv};
ghost use Rattle.std.specs.Cmp.Rules.{comparing, hashing};
ghost use Rattle.std.specs.Hash as fed;
ghost use Rattle.std.specs.Ordering.{as_partial_cmp};
ghost use Rattle.wasm_ref_types.specs.declared.heap.AbstractHeapType.TheVariants as kinds;
ghost use Rattle.wasm_ref_types.specs.declared.heap.HeapType.TheVariants.{Abstract, Concrete, Exact};
ghost use Rattle.wasm_ref_types.specs.Heaps.{HasSmallIndex, heap_form, heap_index, is_of, shared_heap};
ghost use Rattle.wasm_ref_types.specs.Indices.{index_kind};
ghost use Rattle.wasm_ref_types.specs.Orders.{reference_cmp-total, reference_eq-equiv, reference-ties};
ghost use Rattle.wasm_ref_types.specs.Packed.{IsReference, heap_of, reference_bits};
ghost use Rattle.wasm_ref_types.specs.Reference.{reference_cmp, reference_eq, reference};

use crate::heap::{AbstractHeapType, HeapType};
use crate::index::PackedIndex;
use std::cmp::Ordering;
use std::hash::{Hash, Hasher};
use std::marker::Model;

// The layout: in the lowest 20 bits the number of an index, or an abstract type's place in their order; above it in two bits
// the kind of index, or whether an abstract type is shared; above those in two bits the form; at the top nullability.
pub(crate) const NULLABLE: u32 = 1 << 24;

const HEAP: u32 = NULLABLE - 1;

const FORM: u32 = 1 << 22;

const BELOW_FORM: u32 = FORM - 1;

const SHARED: u32 = 1 << 20;

const NUMBER: u32 = SHARED - 1;

/// A reference type in 25 bits. Contracts see it as its nullability and its heap type.
///
/// Those without null come first in the order; then abstract types, concrete ones and exact ones; abstract ones that are
/// not shared before shared ones; the others by the kind of index, then by its number.
#[derive(Clone, Copy)]
pub struct RefType {
    pub(crate) bits: u32,
}

impl Model for RefType {
    ghost use Rattle.wasm_ref_types.specs.Reference.{Reference};

    ghost Value = { Reference };

    ghost use Rattle.std.specs.Prelude.{ℕ};
    ghost use Rattle.std.proofs.Common.{ap};
    ghost use Rattle.wasm_ref_types.specs.Packed.{IsReference, reference_of, reference_bits, reference_bits-of};

    ghost view = { λ r. reference_of r.bits };

    ghost invariant = { λ r. IsReference r.bits };

    ghost inverse = { λ r. record { bits = reference_bits r } };

    ghost inverse_ok = { λ r h. ap (λ (n : ℕ). record { bits = n }) (reference_bits-of r.bits h) };
}

impl RefType {
    /// References to the values of this type and of its subtypes.
    pub fn concrete(nullable: bool, index: PackedIndex) -> Self
        ensures { result ≡ reference nullable (Concrete index) }
    {
        RefType::of_form(nullable, 1, index.bits())
    }

    /// References to the values of this type alone.
    pub fn exact(nullable: bool, index: PackedIndex) -> Self
        ensures { result ≡ reference nullable (Exact index) }
    {
        RefType::of_form(nullable, 2, index.bits())
    }

    /// The type of this nullability and heap type, if the number of an index in it is below 2^20.
    pub fn new(nullable: bool, heap_type: HeapType) -> Option<Self>
        ensures small { IsSome result ↔ HasSmallIndex heap_type }
        ensures same { IfSome result (λ r. r ≡ reference nullable heap_type) }
    {
        match heap_type {
            HeapType::Abstract { shared, ty } => Some(RefType::of_abstract(nullable, shared, ty)),
            HeapType::Concrete(index) => Some(RefType::concrete(nullable, index.pack()?)),
            HeapType::Exact(index) => Some(RefType::exact(nullable, index.pack()?)),
        }
    }

    /// The first type without the second one's null: nullable exactly if the first is and the second isn't.
    pub fn difference(a: RefType, b: RefType) -> RefType
        ensures { result ≡ reference (a.nullable && not b.nullable) a.heap_type }
    {
        if b.is_nullable() { a.as_non_null() } else { a }
    }

    /// The index that the type names, exact or not, if it names one.
    pub fn type_index(&self) -> Option<PackedIndex>
        ensures { result ≡ heap_index self.now.heap_type }
    {
        if !self.is_concrete_type_ref() {
            return None;
        }
        Some(PackedIndex::from_bits(self.bits & BELOW_FORM))
    }

    /// Whether the type names an index, exact or not.
    pub fn is_concrete_type_ref(&self) -> bool
        ensures { result ≡ not (heap_form self.now.heap_type == 0) }
    {
        self.form() != 0
    }

    /// Whether the values are of one type alone.
    pub fn is_exact_type_ref(&self) -> bool
        ensures { result ≡ (heap_form self.now.heap_type == 2) }
    {
        self.form() == 2
    }

    /// Whether the abstract type is `func`, shared or not.
    pub fn is_func_ref(&self) -> bool
        ensures { result ≡ is_of kinds.Func self.now.heap_type }
    {
        self.is_of(AbstractHeapType::Func)
    }

    /// Whether the abstract type is `extern`, shared or not.
    pub fn is_extern_ref(&self) -> bool
        ensures { result ≡ is_of kinds.Extern self.now.heap_type }
    {
        self.is_of(AbstractHeapType::Extern)
    }

    /// Whether the abstract type is `array`, shared or not.
    pub fn is_array_ref(&self) -> bool
        ensures { result ≡ is_of kinds.Array self.now.heap_type }
    {
        self.is_of(AbstractHeapType::Array)
    }

    /// Whether the abstract type is `struct`, shared or not.
    pub fn is_struct_ref(&self) -> bool
        ensures { result ≡ is_of kinds.Struct self.now.heap_type }
    {
        self.is_of(AbstractHeapType::Struct)
    }

    /// Whether the abstract type is `cont`, shared or not.
    pub fn is_cont_ref(&self) -> bool
        ensures { result ≡ is_of kinds.Cont self.now.heap_type }
    {
        self.is_of(AbstractHeapType::Cont)
    }

    /// Whether the abstract type is `none`, shared or not.
    pub fn is_none_ref(&self) -> bool
        ensures { result ≡ is_of kinds.None self.now.heap_type }
    {
        self.is_of(AbstractHeapType::None)
    }

    /// Whether null is a value of the type.
    pub fn is_nullable(&self) -> bool
        ensures { result ≡ self.now.nullable }
    {
        self.bits >= NULLABLE
    }

    /// The type without null.
    pub fn as_non_null(&self) -> Self
        ensures { result ≡ reference false self.now.heap_type }
    {
        RefType::of_heap(false, self.bits & HEAP)
    }

    /// The type with null.
    pub fn nullable(&self) -> Self
        ensures { result ≡ reference true self.now.heap_type }
    {
        RefType::of_heap(true, self.bits & HEAP)
    }

    /// The type of shared values of the same kind, if the type names no index.
    pub fn shared(&self) -> Option<Self>
        ensures { result ≡ option_map (reference self.now.nullable) (shared_heap self.now.heap_type) }
    {
        match self.heap_type() {
            HeapType::Abstract { shared: _, ty } => {
                Some(RefType::of_abstract(self.is_nullable(), true, ty))
            }
            _ => None,
        }
    }

    /// What the values other than null point to.
    pub fn heap_type(&self) -> HeapType
        ensures { result ≡ self.now.heap_type }
    {
        let rest = self.bits & BELOW_FORM;
        match self.form() {
            0 => HeapType::Abstract {
                shared: rest >= SHARED,
                ty: AbstractHeapType::of_rank(rest & NUMBER),
            },
            1 => HeapType::Concrete(PackedIndex::from_bits(rest).unpack()),
            _ => HeapType::Exact(PackedIndex::from_bits(rest).unpack()),
        }
    }
}

impl RefType {
    // 0 for an abstract type, 1 for a concrete one, 2 for an exact one.
    fn form(&self) -> u32
        ensures { result ≡ heap_form self.now.heap_type }
    {
        self.bits >> 22 & 3
    }

    // The type of a form, and of the 22 bits below it.
    fn of_form(nullable: bool, form: u32, rest: u32) -> Self
        requires form { form < 3 }
        requires kind { rest < 3145728 }
        requires abstract_kind { form ≡ 0 → (rest < 2097152) × (rest % 1048576 < 14) }
        ensures { result ≡ reference nullable (heap_of form rest) }
    {
        RefType::of_heap(nullable, form * FORM + rest)
    }

    // The type of the heap type that these 24 bits stand for.
    fn of_heap(nullable: bool, heap_bits: u32) -> Self
        requires below { heap_bits < 16777216 }
        requires heap { IsReference heap_bits }
        ensures { result ≡ reference nullable (heap_of (heap_bits / 4194304) (heap_bits % 4194304)) }
    {
        let null = if nullable { NULLABLE } else { 0 };
        RefType {
            bits: null + heap_bits,
        }
    }

    // The type of an abstract type.
    pub(crate) fn of_abstract(nullable: bool, shared: bool, ty: AbstractHeapType) -> Self
        ensures { result ≡ reference nullable (Abstract shared ty) }
    {
        let kind = if shared { SHARED } else { 0 };
        RefType::of_form(nullable, 0, kind + ty.rank())
    }

    // Whether the abstract type is this one.
    fn is_of(&self, ty: AbstractHeapType) -> bool
        ensures { result ≡ is_of ty self.now.heap_type }
    {
        match self.heap_type() {
            HeapType::Abstract { shared: _, ty: own } => own.rank() == ty.rank(),
            _ => false,
        }
    }
}

impl PartialEq for RefType {
    ghost eq = { reference_eq };

    ghost laws = { partial_equiv_from_equiv reference_eq-equiv };

    fn eq(&self, other: &RefType) -> bool {
        self.bits == other.bits
    }
}

impl Eq for RefType {
    ghost laws = { reference_eq-equiv };
}

impl PartialOrd for RefType {
    ghost partial_cmp = { as_partial_cmp reference_cmp };

    ghost laws = { partial_order_from_own_ties (partial_order_from_total reference_cmp-total) reference-ties };

    fn partial_cmp(&self, other: &RefType) -> Option<Ordering> {
        Some(self.cmp(other))
    }
}

impl Ord for RefType {
    ghost cmp = { reference_cmp };

    ghost total = { reference_cmp-total };

    ghost matches_partial_cmp = { Prim.search (comparing, rules) };

    ghost matches_eq = { reference-ties };

    fn cmp(&self, other: &RefType) -> Ordering {
        self.bits.cmp(&other.bits)
    }
}

impl Hash for RefType {
    ghost hash_input = { λ r. fed.u32 (reference_bits r) };

    ghost respects_eq = { Prim.search (hashing, rules) };

    fn hash<H: Hasher>(&self, state: &mut H) {
        self.bits.hash(state);
    }
}
