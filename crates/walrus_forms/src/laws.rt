//! Laws of the words that the contracts of this crate cite. Each function is its contract alone.
ghost use Rattle.std.specs.Prelude.{◌≡◌};
ghost use Rattle.walrus_forms.specs.Conversions.{NamesAreRenamed, TypesComeBack, RecordsAreTold};
ghost use Rattle.walrus_forms.specs.Same.{SameKindIsEquality};
ghost use Rattle.walrus_forms.specs.Values.{named_types};
ghost use Rattle.walrus_forms.specs.ValueOrder.{value_cmp, field_cmp};
ghost use Rattle.walrus_forms.specs.contracts.value.ValTypeOrd.TheImpl.{ghosts as value_ord};
ghost use Rattle.walrus_forms.specs.contracts.value.FieldTypeOrd.TheImpl.{ghosts as field_ord};

use crate::value::{FieldType, RefType, ValType};

/// The constants of [`RefType`], in the order of the abstract types: each is the type of its name.
pub fn reference_constants() -> [RefType; 11]
    ensures { result ≡ named_types }
{
    [
        RefType::FUNCREF,
        RefType::EXTERNREF,
        RefType::ANYREF,
        RefType::NULLREF,
        RefType::NULLEXTERNREF,
        RefType::NULLFUNCREF,
        RefType::EQREF,
        RefType::STRUCTREF,
        RefType::ARRAYREF,
        RefType::I31REF,
        RefType::EXNREF,
    ]
}

/// The test of kinds is true exactly where they are one.
pub fn same_kind_is_equality()
    ensures { SameKindIsEquality }
{}

/// Value types are ordered as they are written: numbers, the vector type, references without null, nullable
/// ones.
pub fn values_are_ordered(a: ValType, b: ValType)
    ensures { value_ord.cmp a b ≡ value_cmp a b }
{
    let _ = a;
    let _ = b;
}

/// Fields are ordered by what they hold, those that can't be written first.
pub fn fields_are_ordered(a: FieldType, b: FieldType)
    ensures { field_ord.cmp a b ≡ field_cmp a b }
{
    let _ = a;
    let _ = b;
}

/// The type that a renamed type names is the one that it named, renamed.
pub fn names_are_renamed()
    ensures { NamesAreRenamed }
{}

/// A type whose name is sent through a map, and then through one that undoes it, is the same: so a type is
/// described and resolved again, where the lists undo each other on its name.
pub fn types_come_back()
    ensures { TypesComeBack }
{}

/// Records that describe one type are one: so a record is resolved and described again, where the lists undo
/// each other on its index.
pub fn records_are_told_apart()
    ensures { RecordsAreTold }
{}
