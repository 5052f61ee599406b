// The operations on feature sets.

ghost use Rattle.std.specs.Prelude.{◌≡◌, ◌==◌, ◌<◌, ◌^◌, [], true, not, if◌then◌else◌, bit_and};
ghost use Rattle.wasm_features.specs.Features.{has, all_names, features_of};
ghost use Rattle.wasm_features.specs.Sets.{IsNamed, IsWithin, union, intersection, difference, symmetric_difference, complement};

use crate::WasmFeatures;
use bitflags::Flags;
use std::ops::{
    BitAnd, BitAndAssign, BitOr, BitOrAssign, BitXor, BitXorAssign, Not, Sub, SubAssign,
};

impl WasmFeatures {
    /// The set with no name.
    pub fn empty() -> Self
        ensures { result ≡ features_of [] }
    {
        <Self as Flags>::empty()
    }

    /// The set of all names.
    pub fn all() -> Self
        ensures { result ≡ features_of all_names }
    {
        <Self as Flags>::all()
    }

    /// The set as a number, in which each name has its bit.
    pub fn bits(&self) -> u32
        ensures { result ≡ self.now.bits }
    {
        self.bits
    }

    /// Whether the set is empty.
    pub fn is_empty(&self) -> bool
        ensures { result ≡ (self.now.bits == 0) }
    {
        <Self as Flags>::is_empty(self)
    }

    /// Whether the set has each name of `other`.
    pub fn contains(&self, other: Self) -> bool
        ensures bits { result ≡ (bit_and self.now.bits other.bits == other.bits) }
        ensures within { result ≡ true → IsWithin other self.now }
        ensures all { IsNamed other → IsWithin other self.now → result ≡ true }
    {
        <Self as Flags>::contains(self, other)
    }

    /// Whether the two sets share a name.
    pub fn intersects(&self, other: Self) -> bool
        ensures { result ≡ not ((intersection self.now other).bits == 0) }
    {
        <Self as Flags>::intersects(self, other)
    }

    /// Adds the names of `other`.
    pub fn insert(&mut self, other: Self)
        ensures { self.new ≡ union self.old other }
    {
        <Self as Flags>::insert(self, other);
    }

    /// Takes the names of `other` away.
    pub fn remove(&mut self, other: Self)
        ensures { self.new ≡ difference self.old other }
    {
        <Self as Flags>::remove(self, other);
    }

    /// Adds the names of `other` that are not in the set, and takes those away that are.
    pub fn toggle(&mut self, other: Self)
        ensures { self.new ≡ symmetric_difference self.old other }
    {
        <Self as Flags>::toggle(self, other);
    }

    /// Adds the names of `other` or takes them away.
    pub fn set(&mut self, other: Self, value: bool)
        ensures { self.new ≡ (if value then union self.old other else difference self.old other) }
    {
        <Self as Flags>::set(self, other, value);
    }

    /// The names of both sets.
    pub fn intersection(self, other: Self) -> Self
        ensures { result ≡ intersection self other }
    {
        <Self as Flags>::intersection(self, other)
    }

    /// The names of either set.
    pub fn union(self, other: Self) -> Self
        ensures { result ≡ union self other }
    {
        <Self as Flags>::union(self, other)
    }

    /// The names of this set that `other` lacks.
    pub fn difference(self, other: Self) -> Self
        ensures { result ≡ difference self other }
    {
        <Self as Flags>::difference(self, other)
    }

    /// The names of one of the two sets alone.
    pub fn symmetric_difference(self, other: Self) -> Self
        ensures { result ≡ symmetric_difference self other }
    {
        <Self as Flags>::symmetric_difference(self, other)
    }

    /// The names that the set lacks.
    pub fn complement(self) -> Self
        ensures { result ≡ complement self }
    {
        <Self as Flags>::complement(self)
    }
}

impl BitOr for WasmFeatures {
    type Output = Self;

    ghost bitor_gives = { λ a b r. r ≡ union a b };

    fn bitor(self, other: Self) -> Self {
        self.union(other)
    }
}

impl BitOrAssign for WasmFeatures {
    ghost bitor_assign_gives = { λ a b r. r ≡ union a b };

    fn bitor_assign(&mut self, other: Self) {
        *self = (*self).union(other);
    }
}

impl BitAnd for WasmFeatures {
    type Output = Self;

    ghost bitand_gives = { λ a b r. r ≡ intersection a b };

    fn bitand(self, other: Self) -> Self {
        self.intersection(other)
    }
}

impl BitAndAssign for WasmFeatures {
    ghost bitand_assign_gives = { λ a b r. r ≡ intersection a b };

    fn bitand_assign(&mut self, other: Self) {
        *self = (*self).intersection(other);
    }
}

impl BitXor for WasmFeatures {
    type Output = Self;

    ghost bitxor_gives = { λ a b r. r ≡ symmetric_difference a b };

    fn bitxor(self, other: Self) -> Self {
        self.symmetric_difference(other)
    }
}

impl BitXorAssign for WasmFeatures {
    ghost bitxor_assign_gives = { λ a b r. r ≡ symmetric_difference a b };

    fn bitxor_assign(&mut self, other: Self) {
        *self = (*self).symmetric_difference(other);
    }
}

impl Sub for WasmFeatures {
    type Output = Self;

    ghost sub_gives = { λ a b r. r ≡ difference a b };

    fn sub(self, other: Self) -> Self {
        self.difference(other)
    }
}

impl SubAssign for WasmFeatures {
    ghost sub_assign_gives = { λ a b r. r ≡ difference a b };

    fn sub_assign(&mut self, other: Self) {
        *self = (*self).difference(other);
    }
}

impl Not for WasmFeatures {
    type Output = Self;

    ghost not_gives = { λ a r. r ≡ complement a };

    fn not(self) -> Self {
        self.complement()
    }
}
