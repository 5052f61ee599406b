//! Laws: functions with nothing to do, whose contracts hold of all bytes.

ghost use Rattle.wasm_named_modules.specs.Modules.{LastNames, ReadingNames};

/// Bytes read as one module with names and producers at most; where they read as a module they have these, whatever the payloads hold; what doesn't read stops.
pub fn reading_names()
    ensures { ReadingNames }
{}

/// The names of a module are the last ones that its payloads give to what is there, by rising number.
pub fn names_are_last()
    ensures { LastNames }
{}
