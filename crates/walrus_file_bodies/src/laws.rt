//! Laws: functions with nothing to do, whose contracts hold of all modules that files have filled.

ghost use Rattle.walrus_file_bodies.specs.Laws.{BodiesReadFiles, BodiesStopFiles};
ghost use Rattle.walrus_file_bodies.specs.Ready.{FilledModulesAreReady};

use walrus_function_types::laws::{entry_types_grow, found_types_stay, tables_grow_on};
use walrus_items_into::laws::{filled_functions_stand, filled_modules_are_filed};
use walrus_items_into::module_bodies::laws::steps_read_codes;

/// What reading bodies asks for holds where the sections of a file have filled a new module: the bodies lie in the file, each is of a
/// function of its own that has a live function type and no locals, and the module stays that of the file while types are added.
pub fn filled_modules_are_ready<B>()
    ensures { FilledModulesAreReady B }
{
    filled_functions_stand::<B>();
    filled_modules_are_filed::<B>();
}

/// Where reading the bodies of a file into its module stops, the file's bodies stop in the grammar: those in front read, and the next one
/// stops, for the fault that is told, at its place (Core Specification, binary format: code section).
pub fn bodies_stop_files<B>()
    ensures { BodiesStopFiles B }
{
    filled_functions_stand::<B>();
    filled_modules_are_filed::<B>();
    found_types_stay();
    tables_grow_on();
    entry_types_grow();
}

/// Bodies that were read into the module of a file are the file's: each reads as its body in the grammar, and each function names its
/// parameters and the locals that its body declares (Core Specification, binary format: code section).
pub fn bodies_read_files<B>()
    ensures { BodiesReadFiles B }
{
    filled_functions_stand::<B>();
    filled_modules_are_filed::<B>();
    filled_modules_are_ready::<B>();
    steps_read_codes();
}
