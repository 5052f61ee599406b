//! Laws of tables of types that are edited: what each call keeps, so that what is emitted is read back.

ghost use Rattle.walrus_type_laws.specs.Edits.{OwnIdsAreKept, SettledIsKept};
ghost use Rattle.walrus_type_laws.specs.Locals.{LocalIdsAreKept};
ghost use Rattle.walrus_type_laws.specs.Ordinary.{EmittedAreOrdinary, RecordsAreOrdinary};

/// A new table is settled, and so is a settled one after each call, but for one that lends a type for
/// writing, where more than its name is written. What a settled table emits is read back as its types.
pub fn settled_is_kept()
    ensures { SettledIsKept }
{}

/// Each type has the id by which it is found, in a new table and after each call, but for one that lends
/// a type for writing, where the whole type is exchanged.
pub fn own_ids_are_kept()
    ensures { OwnIdsAreKept }
{}

/// What a table emits has no entry types, and one type in each group without a mark where the table's groups have one.
pub fn emitted_are_ordinary()
    ensures { EmittedAreOrdinary }
{}

/// Records of a type section describe no entry types, so that they are ordinary.
pub fn records_are_ordinary()
    ensures { RecordsAreOrdinary }
{}

/// Each local has the id by which it is found, where there are none and after each call, but for one that
/// lends a local for writing, where the whole local is exchanged for one of another id.
pub fn local_ids_are_kept()
    ensures { LocalIdsAreKept }
{}
