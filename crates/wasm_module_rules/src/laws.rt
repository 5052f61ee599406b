//! Laws: functions with nothing to do, whose contracts hold of all sections and of all modules that are read.

ghost use Rattle.wasm_module_rules.specs.Entries.{SectionsAreRuled};
ghost use Rattle.wasm_module_rules.specs.Limits.{LimitsHold};
ghost use Rattle.wasm_module_rules.specs.Linked.{ReadModulesAreLinked};

/// In a module that was read what is named is there, functions and tags have function types, export names are distinct, and limits are in
/// order.
pub fn read_modules_are_linked()
    ensures { ReadModulesAreLinked }
{}

/// One more than a list may have is refused for its limit, and what there is room for isn't.
pub fn limits_hold()
    ensures { LimitsHold }
{}

/// Functions, tables, memories, tags and segments meet the rules of their section's entries exactly if each does at the state before the
/// section, and there is room for all.
pub fn sections_are_ruled()
    ensures { SectionsAreRuled }
{}
