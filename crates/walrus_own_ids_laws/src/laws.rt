//! Laws: functions with nothing to do, whose contracts hold of all modules that are read, and of what is kept of them.

ghost use Rattle.walrus_own_ids_laws.specs.OwnIds.{KeptFunctionsHaveOwnIds, KeptItemsHaveOwnIds, ReadFunctionsHaveOwnIds, ReadItemsHaveOwnIds};

/// In a module that was read each item has the id by which it is found, as it has to for its numbers to be a plan's.
pub fn read_items_have_own_ids<B>()
    ensures { ReadItemsHaveOwnIds B }
{}

/// In what is kept of a module whose items have the ids by which they are found they have them, too.
pub fn kept_items_have_own_ids()
    ensures { KeptItemsHaveOwnIds }
{}

/// In a module that was read each function has the id by which it is found, whether an import brings it or its body was read.
pub fn read_functions_have_own_ids<B>()
    ensures { ReadFunctionsHaveOwnIds B }
{}

/// In what is kept of a module whose functions have the ids by which they are found they have them, too.
pub fn kept_functions_have_own_ids()
    ensures { KeptFunctionsHaveOwnIds }
{}
