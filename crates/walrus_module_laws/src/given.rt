//! What the iterators of a collection give.
ghost use Rattle.walrus_module_laws.specs.Given.{ItemsAreLive, LocalsAreLive};

use walrus_collections::{Collection, ModuleFunctions};

/// The iterators over items and ids give each live item once, by rising id.
pub fn items_are_live<T, S>(collection: &Collection<T, S>)
    ensures { ItemsAreLive collection.now }
{
    let _ = collection;
}

/// The iterator over functions with a body gives each live one.
pub fn locals_are_live(functions: &ModuleFunctions)
    ensures { LocalsAreLive functions.now }
{
    let _ = functions;
}
