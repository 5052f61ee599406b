//! What deletes and writes keep of a linked module.

ghost use Rattle.walrus_module_laws.specs.Changes.{DeletesKeepLinked, WritesKeepLinked};

/// A linked module stays linked where an item is deleted that nothing else names: a type, a function, a table, a memory, a global,
/// a tag or a segment; and where a whole group of types is, whose members nothing else names.
pub fn deletes_keep_linked()
    ensures { DeletesKeepLinked }
{}

/// A linked module stays linked where an item that was lent for writing is then imported, or the module's own, as it was before, and
/// names what lives; a function also has to be whole, and an import brings what it brought.
pub fn writes_keep_linked()
    ensures { WritesKeepLinked }
{}
