//! Laws of the words that the contracts of this crate cite. Each function is its contract alone.
ghost use Rattle.walrus_instr.specs.Renamed.{OpsAreRenamed, OpsComeBack};

/// A constant expression whose indices are sent through maps has the operators that it had, with their
/// indices sent through these maps.
pub fn expressions_are_renamed_by_operator()
    ensures { OpsAreRenamed }
{}

/// Operators that are read with each index sent through a map, and written with each sent through maps
/// that undo these, are the same.
pub fn operators_come_back()
    ensures { OpsComeBack }
{}
