//! Laws of the words that the contracts of this crate cite. Each function is its contract alone.
ghost use Rattle.std.specs.Prelude.{◌≡◌, ℕ, Bool};
ghost use Rattle.walrus_type_arenas.specs.walrus_type_index.walrus_items.Items.{Item, kind_of};
ghost use Rattle.walrus_type_arenas.specs.TypeLaws.{AreGrouped, FindsLatest};
ghost use Rattle.walrus_types.specs.Mergers.{ParsingCarriesSame, SameIsOne};
ghost use Rattle.walrus_type_arenas.specs.walrus_type_index.walrus_items.walrus_forms.Same.{same_kind};
ghost use Rattle.walrus_type_arenas.specs.walrus_type_index.walrus_items.walrus_forms.Order.{kind_cmp};
ghost use Rattle.walrus_type_arenas.specs.walrus_type_index.walrus_items.contracts.subtype.TypeOrd.TheImpl.{ghosts as type_ord};
ghost use Rattle.walrus_type_arenas.specs.walrus_type_index.walrus_items.contracts.subtype.TypePartialEq.TheImpl.{ghosts as type_eq};

use crate::table::ModuleTypes;
use walrus_type_arenas::type_index::items::Type;

/// Two types are equal exactly where their form, finality, supertype and entry mark are.
pub fn equal_types_are_of_one_kind(a: &Type, b: &Type)
    ensures { type_eq.eq a.now b.now ≡ same_kind (kind_of a.now) (kind_of b.now) }
{
    let _ = a;
    let _ = b;
}

/// A search for the latest type that passes a test answers it, or nothing where none passes.
pub fn search_finds_latest(types: &ModuleTypes)
    ensures { (test : ℕ × Item → Bool) → FindsLatest test types.now }
{
    let _ = types;
}

/// Each live type of a table stands in exactly one group, once, and the types of a later group have the
/// higher ids.
pub fn types_are_grouped(types: &ModuleTypes)
    ensures { AreGrouped types.now }
{
    let _ = types.rec_groups();
}

/// Two types are ordered as their form, finality, supertype and entry mark are.
pub fn types_are_ordered_by_kind(a: &Type, b: &Type)
    ensures { type_ord.cmp a.now b.now ≡ kind_cmp (kind_of a.now) (kind_of b.now) }
{
    let _ = a;
    let _ = b;
}

/// What is parsed into a new table carries what stands for what: two types of a section have one id
/// exactly where they stand for one type.
pub fn parsing_carries_same()
    ensures { ParsingCarriesSame }
{}

/// What stands for what is determined by the section.
pub fn same_is_one()
    ensures { SameIsOne }
{}
