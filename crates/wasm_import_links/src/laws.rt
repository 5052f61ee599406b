//! Laws: functions with nothing to do, whose contracts hold of all modules that are read.

ghost use Rattle.wasm_import_links.specs.Full.{ReadModulesAreFull};
ghost use Rattle.wasm_import_links.specs.Links.{ReadModulesLink};

/// In a module that was read each import names an item that this import brings, and each item that an import brings is the one that it names.
pub fn read_modules_link()
    ensures { ReadModulesLink }
{}

/// In a module that was read each number below the count of its space has an item.
pub fn read_modules_are_full()
    ensures { ReadModulesAreFull }
{}
