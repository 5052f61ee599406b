//! Files computed from the grammar of modules: facts, as functions with nothing to do.
#![tactic(auto)]

ghost use Rattle.wasm_module_rows.specs.Read.{FilesRead};
ghost use Rattle.wasm_module_rows.specs.Stopped.{FilesStop};
ghost use Rattle.wasm_module_rows.specs.Faults.{FaultsStop};
ghost use Rattle.wasm_module_rows.specs.Orders.{OrdersHold};
ghost use Rattle.wasm_module_rows.specs.Named.{NamesKept};
ghost use Rattle.wasm_module_rows.specs.NamedModules.{ModulesAreNamed};
ghost use Rattle.wasm_module_rows.specs.Picks.{PicksStand};

/// Worked files read as the modules that they are to be.
pub fn worked_files_read()
    ensures { FilesRead }
{}

/// Worked files stop for the fault and at the place that are to be told; so does each front of the first one.
pub fn worked_files_stop()
    ensures { FilesStop }
{}

/// Files with one fault of each kind stop for it, at its place.
pub fn faults_stop()
    ensures { FaultsStop }
{}

/// Of two faults the one that is due first is told; counts and lengths are refused from one past their limit on, and not at it. That of
/// types, imports, functions, globals, tags, exports and segments, and of the file, would take so many entries, or bytes, to pass: they
/// aren't computed here.
pub fn first_faults_stop()
    ensures { OrdersHold }
{}

/// Of files with sections `name` the names that stand whole before the first fault are kept, wherever the section stands; of two
/// sections both are read, and the last name wins.
pub fn names_are_kept()
    ensures { NamesKept }
{}

/// With their names and producers modules are without the sections that hold them; of names the last one stays, by rising number.
pub fn modules_are_named()
    ensures { ModulesAreNamed }
{}

/// A type that merges with an earlier one is no pick: the pick is the latest type that serves, of those that stand for themselves.
pub fn picks_stand()
    ensures { PicksStand }
{}
