//! Indices of types: of a module, of a recursion group, or of types that were made one across modules.

ghost use Rattle.std.specs.Prelude.{◌≡◌, ◌<◌, ◌^◌, ◌↔◌, IsSome, IfSome};
ghost use Rattle.std.proofs.Common.{rules};
ghost use Rattle.std.specs.Cmp.{partial_order_from_own_ties};
ghost use Rattle.std.specs.Cmp.Rules.{comparing, hashing};
ghost use Rattle.std.specs.Hash as fed;
ghost use Rattle.std.specs.Ordering.{as_partial_cmp};
ghost use Rattle.wasm_ref_types.specs.declared.index.UnpackedIndex.TheVariants.{Module, RecGroup, Id};
ghost use Rattle.wasm_ref_types.specs.Indices.{index_cmp, index_eq, IsSmall, is_id, module_index, group_index, core_id};
ghost use Rattle.wasm_ref_types.specs.Packed.{of_kind, index_bits, index_of};

use std::cmp::Ordering;
use std::fmt;
use std::hash::{Hash, Hasher};
use std::marker::Model;

/// The number of a type among those that are one across modules.
#[derive(Clone, Copy, Debug, PartialEq, Eq, PartialOrd, Ord, Hash)]
pub struct CoreTypeId {
    index: u32,
}

impl CoreTypeId {
    /// The id of this number.
    pub fn from_index(index: u32) -> Self
        ensures { result.index ≡ index }
    {
        CoreTypeId { index }
    }

    /// The id's number.
    pub fn index(self) -> u32
        ensures { result ≡ self.index }
    {
        self.index
    }
}

/// What a type is named by. Indices of a module come first in the order, then those of a group, then ids.
#[derive(Clone, Copy, Debug, PartialEq, Eq, PartialOrd, Ord, Hash)]
pub enum UnpackedIndex {
    /// An index into the types of a module.
    Module(u32),
    /// An index into the types of a recursion group.
    RecGroup(u32),
    /// A type that is one across modules.
    Id(CoreTypeId),
}

impl UnpackedIndex {
    /// The same index in 22 bits, if its number is below 2^20.
    pub fn pack(&self) -> Option<PackedIndex>
        ensures small { IsSome result ↔ IsSmall self.now }
        ensures same { IfSome result (λ packed. packed ≡ self.now) }
    {
        match *self {
            UnpackedIndex::Module(index) => PackedIndex::from_module_index(index),
            UnpackedIndex::RecGroup(index) => PackedIndex::from_rec_group_index(index),
            UnpackedIndex::Id(id) => PackedIndex::from_id(id),
        }
    }

    /// Whether it is an id, which is the same in every module.
    pub fn is_canonical(&self) -> bool
        ensures { result ≡ is_id self.now }
    {
        matches!(self, UnpackedIndex::Id(_))
    }

    /// The index into the types of a module, if it is one.
    pub fn as_module_index(&self) -> Option<u32>
        ensures { result ≡ module_index self.now }
    {
        match *self {
            UnpackedIndex::Module(index) => Some(index),
            _ => None,
        }
    }

    /// The index into the types of a group, if it is one.
    pub fn as_rec_group_index(&self) -> Option<u32>
        ensures { result ≡ group_index self.now }
    {
        match *self {
            UnpackedIndex::RecGroup(index) => Some(index),
            _ => None,
        }
    }

    /// The id, if it is one.
    pub fn as_core_type_id(&self) -> Option<CoreTypeId>
        ensures { result ≡ core_id self.now }
    {
        match *self {
            UnpackedIndex::Id(id) => Some(id),
            _ => None,
        }
    }
}

const MASK: u32 = 0xfffff;

/// An index whose number is below 2^20, with its kind, in 22 bits. Contracts see it as the index that it unpacks to.
#[derive(Clone, Copy)]
pub struct PackedIndex {
    bits: u32,
}

impl Model for PackedIndex {
    ghost use Rattle.wasm_ref_types.specs.declared.index.UnpackedIndex.{UnpackedIndex};

    ghost Value = { UnpackedIndex };

    ghost use Rattle.std.specs.Prelude.{ℕ, ◌<◌};
    ghost use Rattle.std.proofs.Common.{ap};
    ghost use Rattle.wasm_ref_types.specs.Packed.{index_bits, index_of, index_bits-of};

    ghost view = { λ index. index_of index.bits };

    ghost invariant = { λ index. index.bits < 3145728 };

    ghost inverse = { λ index. record { bits = index_bits index } };

    ghost inverse_ok = { λ index h. ap (λ (n : ℕ). record { bits = n }) (index_bits-of index.bits h) };
}

impl PackedIndex {
    /// This index into the types of a module, if it is below 2^20.
    pub fn from_module_index(index: u32) -> Option<Self>
        ensures small { IsSome result ↔ (index < 2 ^ 20) }
        ensures same { IfSome result (λ packed. packed ≡ Module index) }
    {
        PackedIndex::of_kind(0, index)
    }

    /// This index into the types of a group, if it is below 2^20.
    pub fn from_rec_group_index(index: u32) -> Option<Self>
        ensures small { IsSome result ↔ (index < 2 ^ 20) }
        ensures same { IfSome result (λ packed. packed ≡ RecGroup index) }
    {
        PackedIndex::of_kind(1, index)
    }

    /// This id, if its number is below 2^20.
    pub fn from_id(id: CoreTypeId) -> Option<Self>
        ensures small { IsSome result ↔ (id.index < 2 ^ 20) }
        ensures same { IfSome result (λ packed. packed ≡ Id id) }
    {
        PackedIndex::of_kind(2, id.index)
    }

    fn of_kind(kind: u32, number: u32) -> Option<Self>
        requires { kind < 3 }
        ensures small { IsSome result ↔ (number < 2 ^ 20) }
        ensures same { IfSome result (λ packed. packed ≡ of_kind kind number) }
    {
        if number > MASK {
            return None;
        }
        Some(PackedIndex {
            bits: kind << 20 | number,
        })
    }

    // The 22 bits.
    pub(crate) fn bits(&self) -> u32
        ensures kind { result < 3145728 }
        ensures same { index_of result ≡ self.now }
    {
        self.bits
    }

    // The index of these 22 bits.
    pub(crate) fn from_bits(bits: u32) -> Self
        requires { bits < 3145728 }
        ensures { result ≡ index_of bits }
    {
        PackedIndex { bits }
    }

    /// Whether it is an id, which is the same in every module.
    pub fn is_canonical(&self) -> bool
        ensures { result ≡ is_id self.now }
    {
        self.unpack().is_canonical()
    }

    /// The same index, unpacked.
    pub fn unpack(&self) -> UnpackedIndex
        ensures { result ≡ self.now }
    {
        let number = self.bits & MASK;
        match self.bits >> 20 {
            0 => UnpackedIndex::Module(number),
            1 => UnpackedIndex::RecGroup(number),
            _ => UnpackedIndex::Id(CoreTypeId { index: number }),
        }
    }

    /// The index into the types of a module, if it is one.
    pub fn as_module_index(&self) -> Option<u32>
        ensures { result ≡ module_index self.now }
    {
        self.unpack().as_module_index()
    }

    /// The index into the types of a group, if it is one.
    pub fn as_rec_group_index(&self) -> Option<u32>
        ensures { result ≡ group_index self.now }
    {
        self.unpack().as_rec_group_index()
    }

    /// The id, if it is one.
    pub fn as_core_type_id(&self) -> Option<CoreTypeId>
        ensures { result ≡ core_id self.now }
    {
        self.unpack().as_core_type_id()
    }
}

impl PartialEq for PackedIndex {
    ghost eq = { index_eq };

    ghost laws = { Prim.search (comparing, rules) };

    fn eq(&self, other: &PackedIndex) -> bool {
        self.bits == other.bits
    }
}

impl Eq for PackedIndex {
    ghost laws = { Prim.search (comparing, rules) };
}

impl PartialOrd for PackedIndex {
    ghost partial_cmp = { as_partial_cmp index_cmp };

    ghost laws = { partial_order_from_own_ties (Prim.search (comparing, rules)) (Prim.search (comparing, rules)) };

    fn partial_cmp(&self, other: &PackedIndex) -> Option<Ordering> {
        Some(self.cmp(other))
    }
}

impl Ord for PackedIndex {
    ghost cmp = { index_cmp };

    ghost total = { Prim.search (comparing, rules) };

    ghost matches_partial_cmp = { Prim.search (comparing, rules) };

    ghost matches_eq = { Prim.search (comparing, rules) };

    fn cmp(&self, other: &PackedIndex) -> Ordering {
        self.bits.cmp(&other.bits)
    }
}

impl Hash for PackedIndex {
    ghost hash_input = { λ index. fed.u32 (index_bits index) };

    ghost respects_eq = { Prim.search (hashing, rules) };

    fn hash<H: Hasher>(&self, state: &mut H) {
        self.bits.hash(state);
    }
}

impl fmt::Debug for PackedIndex {
    fn fmt<W: fmt::Write>(&self, f: &mut fmt::Formatter<W>) -> fmt::Result {
        fmt::Debug::fmt(&self.unpack(), f)
    }
}
