//! Equality and hash of imports.
ghost use Rattle.std.specs.Prelude.{◌≡◌, true};
ghost use Rattle.walrus_module_items.specs.declared.import.Import.{Import};
ghost use Rattle.walrus_module_items.specs.contracts.import.ImportPartialEq.TheImpl.{ghosts as import_eq};
ghost use Rattle.walrus_module_items.specs.contracts.import.ImportHash.TheImpl.{ghosts as import_hash};
ghost use Rattle.walrus_module_laws.specs.Imports.{same_import};

/// Imports are equal exactly where all their fields are, and equal ones hash alike.
pub fn imports_go_by_fields()
    ensures equal { (a b : Import) → import_eq.eq a b ≡ same_import a b }
    ensures hashed { (a b : Import) → same_import a b ≡ true → import_hash.hash_input a ≡ import_hash.hash_input b }
{}
