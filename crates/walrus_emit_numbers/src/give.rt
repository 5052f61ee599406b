//! The next number of its space, for an id that has none.

ghost use Rattle.std.specs.Prelude.{◌≡◌, ◌<◌, ◌^◌, OnOk};
ghost use Rattle.walrus_index_maps.specs.Views.{indices};
ghost use Rattle.walrus_emit_numbers.specs.Numbers.{AreCounted, in_turn};

use std::alloc::AllocError;
use walrus_arena::{ElementId, FunctionId, GlobalId, Id, MemoryId, TableId, TagId, TypeId};
use walrus_index_maps::IdsToIndices;

// An id that has a number keeps it: what two imports bring, as they may in an edited module, is numbered once. So no more numbers are
// given than there are ids, and each fits.

// An id is a number of 32 bits.
fn ids_fit<S>(id: Id<S>)
    ensures { id < 2 ^ 32 }
{
    let _ = id.number();
}

/// Of a type.
pub(crate) fn give_type(maps: &mut IdsToIndices, id: TypeId) -> Result<(), AllocError>
    requires { AreCounted (indices maps.old) }
    ensures given { OnOk result (indices maps.new ≡ record (indices maps.old) { types = in_turn id (indices maps.old).types }) }
    ensures counted { OnOk result (AreCounted (indices maps.new)) }
{
    ids_fit(id);
    if maps.get_type_index(id).is_none() {
        maps.push_type(id)?;
    }
    Ok(())
}

/// Of a function.
pub(crate) fn give_func(maps: &mut IdsToIndices, id: FunctionId) -> Result<(), AllocError>
    requires { AreCounted (indices maps.old) }
    ensures given { OnOk result (indices maps.new ≡ record (indices maps.old) { functions = in_turn id (indices maps.old).functions }) }
    ensures counted { OnOk result (AreCounted (indices maps.new)) }
{
    ids_fit(id);
    if maps.get_func_index(id).is_none() {
        maps.push_func(id)?;
    }
    Ok(())
}

/// Of a table.
pub(crate) fn give_table(maps: &mut IdsToIndices, id: TableId) -> Result<(), AllocError>
    requires { AreCounted (indices maps.old) }
    ensures given { OnOk result (indices maps.new ≡ record (indices maps.old) { tables = in_turn id (indices maps.old).tables }) }
    ensures counted { OnOk result (AreCounted (indices maps.new)) }
{
    ids_fit(id);
    if maps.get_table_index(id).is_none() {
        maps.push_table(id)?;
    }
    Ok(())
}

/// Of a memory.
pub(crate) fn give_memory(maps: &mut IdsToIndices, id: MemoryId) -> Result<(), AllocError>
    requires { AreCounted (indices maps.old) }
    ensures given { OnOk result (indices maps.new ≡ record (indices maps.old) { memories = in_turn id (indices maps.old).memories }) }
    ensures counted { OnOk result (AreCounted (indices maps.new)) }
{
    ids_fit(id);
    if maps.get_memory_index(id).is_none() {
        maps.push_memory(id)?;
    }
    Ok(())
}

/// Of a tag.
pub(crate) fn give_tag(maps: &mut IdsToIndices, id: TagId) -> Result<(), AllocError>
    requires { AreCounted (indices maps.old) }
    ensures given { OnOk result (indices maps.new ≡ record (indices maps.old) { tags = in_turn id (indices maps.old).tags }) }
    ensures counted { OnOk result (AreCounted (indices maps.new)) }
{
    ids_fit(id);
    if maps.get_tag_index(id).is_none() {
        maps.push_tag(id)?;
    }
    Ok(())
}

/// Of a global.
pub(crate) fn give_global(maps: &mut IdsToIndices, id: GlobalId) -> Result<(), AllocError>
    requires { AreCounted (indices maps.old) }
    ensures given { OnOk result (indices maps.new ≡ record (indices maps.old) { globals = in_turn id (indices maps.old).globals }) }
    ensures counted { OnOk result (AreCounted (indices maps.new)) }
{
    ids_fit(id);
    if maps.get_global_index(id).is_none() {
        maps.push_global(id)?;
    }
    Ok(())
}

/// Of an element segment.
pub(crate) fn give_element(maps: &mut IdsToIndices, id: ElementId) -> Result<(), AllocError>
    requires { AreCounted (indices maps.old) }
    ensures given { OnOk result (indices maps.new ≡ record (indices maps.old) { elements = in_turn id (indices maps.old).elements }) }
    ensures counted { OnOk result (AreCounted (indices maps.new)) }
{
    ids_fit(id);
    if maps.get_element_index(id).is_none() {
        maps.push_element(id)?;
    }
    Ok(())
}
