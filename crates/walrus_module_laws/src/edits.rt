//! What edits keep of a linked module.

ghost use Rattle.walrus_module_laws.specs.Edits.{AddsKeepLinked, DeletedExportsKeepLinked, ReplacesKeepLinked};

use std::alloc::AllocError;
use walrus_arena::LocalId;
use walrus_builder::InstrSeqBuilder;

/// A linked module to which an item, an export, a local, a type or a group of types is added stays linked, where what is added
/// names what lives; a function also has to be whole, and an explicit group to be without entry types.
pub fn adds_keep_linked()
    ensures { AddsKeepLinked }
{}

/// A linked module from which an export is deleted stays linked.
pub fn deleted_exports_keep_linked()
    ensures { DeletedExportsKeepLinked }
{}

/// A linked module in which an exported or an imported function is replaced stays linked, where the body that the closure
/// filled can stand there.
pub fn replaces_keep_linked<F: FnOnce(&mut InstrSeqBuilder, &[LocalId]) -> Result<(), AllocError>>()
    ensures { ReplacesKeepLinked F.FnOnce }
{}
