//! Laws: functions with nothing to do, whose contracts hold of all values.

ghost use Rattle.wasm_section_bytes.specs.Flags.{FlagsTell};
ghost use Rattle.wasm_section_bytes.specs.Laws.{EntriesAreShortest, ContentsAreShortest, FilesAreShortest, PlacedAreShortest};

/// Each subtype, constant expression, import, export, own item and segment of given flags within its limits has a spelling; its shortest
/// one is spelled by nothing shorter.
pub fn entries_are_shortest()
    ensures { EntriesAreShortest }
{}

/// So have the contents of each section with their size, those of types and code aside.
pub fn contents_are_shortest()
    ensures { ContentsAreShortest }
{}

/// And so have groups of types and the contents of the sections of types and code, whose values hold their own places: with those of
/// the shortest spelling they are the same.
pub fn placed_are_shortest()
    ensures { PlacedAreShortest }
{}

/// The sections of a file have a shortest spelling, which fills the same module and has the same bodies, byte for byte.
pub fn files_are_shortest()
    ensures { FilesAreShortest }
{}

/// A segment is what is read from the flags and the form with which it is written.
pub fn flags_tell()
    ensures { FlagsTell }
{}
