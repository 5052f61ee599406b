//! Laws: functions with nothing to do, whose contracts hold of all modules that are read.

ghost use Rattle.wasm_ruled_modules.specs.Rules.{ReadModulesAreRuled};

/// A module that was read meets the rules: what it names is there, and no list is longer than it may be.
pub fn read_modules_are_ruled()
    ensures { ReadModulesAreRuled }
{}
