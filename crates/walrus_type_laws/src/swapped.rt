//! A law of the order in which types are written: neighbours that name no type may change places.

ghost use Rattle.walrus_type_laws.specs.Swap.{RecordsHaveNoEntries, SwapChangesNothing};

/// Two neighbouring single types that name no type may stand in either order: what is emitted stays
/// the same, and so does the index of each type.
pub fn swap_changes_nothing()
    ensures { SwapChangesNothing }
{}

/// The law is of all sections that records describe.
pub fn records_have_no_entries()
    ensures { RecordsHaveNoEntries }
{}
