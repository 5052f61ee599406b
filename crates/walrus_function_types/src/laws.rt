//! Laws: functions with nothing to do, whose contracts hold of all tables.

ghost use Rattle.walrus_function_types.specs.Growth.{EntryTypesGrow, FoundTypesStay, TablesGrowOn};

/// A table that has grown, and grows again, has grown.
pub fn tables_grow_on()
    ensures { TablesGrowOn }
{}

/// In a table that has grown live types live on, and what was found by parameters and results is found again.
pub fn found_types_stay()
    ensures { FoundTypesStay }
{}

/// A table grows by the type of a body's own block, where it had none that is equal.
pub fn entry_types_grow()
    ensures { EntryTypesGrow }
{}
