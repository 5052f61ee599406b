//! Laws: functions with nothing to do, whose contracts hold of all that is read.

ghost use Rattle.wasm_inexact_modules.specs.Inexact.{ReadBodiesAreInexact, ReadSectionsAreInexact};

/// In what was read of a file's sections no heap type is exact: in types, tables, globals, element segments and constant expressions.
pub fn read_sections_are_inexact()
    ensures { ReadSectionsAreInexact }
{}

/// Nor is one in a body that was read, in its locals or operators.
pub fn read_bodies_are_inexact()
    ensures { ReadBodiesAreInexact }
{}
