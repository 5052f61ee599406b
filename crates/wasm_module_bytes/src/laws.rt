//! Laws: functions with nothing to do, whose contracts hold of all modules that are read.

ghost use Rattle.wasm_module_bytes.specs.Bytes.{ModulesHaveShortest};
ghost use Rattle.wasm_module_bytes.specs.Due.{EntriesTell};

/// What reads as sections and bodies reads so, places aside, in the shortest spelling of each of them, and nothing shorter reads so.
pub fn modules_have_shortest()
    ensures { ModulesHaveShortest }
{}

/// Each group of types, table, memory, global and export is what the entry says that is due to it.
pub fn entries_tell()
    ensures { EntriesTell }
{}
