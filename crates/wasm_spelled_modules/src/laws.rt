//! Laws: functions with nothing to do, whose contracts hold of all that is read.

ghost use Rattle.wasm_spelled_modules.specs.Spelled.{ReadSectionsAreSpelled};

/// Of what was read of a file's bytes each operator of a constant expression has a spelling, no table that an import brings has an
/// initialiser, no data segment is declared, and imports and exports are of functions, tables, memories, globals and tags.
pub fn read_sections_are_spelled()
    ensures { ReadSectionsAreSpelled }
{}
