//! What the numbers of a file name: in a collection that begins empty the items have the ids 0, 1 and on, as in the file.

ghost use Rattle.std.specs.Prelude.{◌≡◌, ◌++◌, OnOk};
ghost use Rattle.walrus_index_maps.specs.Views.{ids};
ghost use Rattle.walrus_sections_into.specs.Numbers.{upto};

use std::alloc::AllocError;
use walrus_arena::{DataId, ElementId, FunctionId, GlobalId, MemoryId, TableId, TagId};
use walrus_index_maps::IndicesToIds;

/// The next numbers name so many functions, from the first on.
///
/// # Errors
///
/// Want of memory.
pub fn number_functions(count: u32, maps: &mut IndicesToIds) -> Result<(), AllocError>
    ensures { OnOk result (ids maps.new ≡ record (ids maps.old) { functions = (ids maps.old).functions ++ upto count }) }
{
    for number in 0..count {
        maps.push_func(FunctionId::from_index(number as usize))?;
    }
    Ok(())
}

/// The next numbers name so many tables, from the first on.
///
/// # Errors
///
/// Want of memory.
pub fn number_tables(count: u32, maps: &mut IndicesToIds) -> Result<(), AllocError>
    ensures { OnOk result (ids maps.new ≡ record (ids maps.old) { tables = (ids maps.old).tables ++ upto count }) }
{
    for number in 0..count {
        maps.push_table(TableId::from_index(number as usize))?;
    }
    Ok(())
}

/// The next numbers name so many memories, from the first on.
///
/// # Errors
///
/// Want of memory.
pub fn number_memories(count: u32, maps: &mut IndicesToIds) -> Result<(), AllocError>
    ensures { OnOk result (ids maps.new ≡ record (ids maps.old) { memories = (ids maps.old).memories ++ upto count }) }
{
    for number in 0..count {
        maps.push_memory(MemoryId::from_index(number as usize))?;
    }
    Ok(())
}

/// The next numbers name so many tags, from the first on.
///
/// # Errors
///
/// Want of memory.
pub fn number_tags(count: u32, maps: &mut IndicesToIds) -> Result<(), AllocError>
    ensures { OnOk result (ids maps.new ≡ record (ids maps.old) { tags = (ids maps.old).tags ++ upto count }) }
{
    for number in 0..count {
        maps.push_tag(TagId::from_index(number as usize))?;
    }
    Ok(())
}

/// The next numbers name so many globals, from the first on.
///
/// # Errors
///
/// Want of memory.
pub fn number_globals(count: u32, maps: &mut IndicesToIds) -> Result<(), AllocError>
    ensures { OnOk result (ids maps.new ≡ record (ids maps.old) { globals = (ids maps.old).globals ++ upto count }) }
{
    for number in 0..count {
        maps.push_global(GlobalId::from_index(number as usize))?;
    }
    Ok(())
}

/// The next numbers name so many elements, from the first on.
///
/// # Errors
///
/// Want of memory.
pub fn number_elements(count: u32, maps: &mut IndicesToIds) -> Result<(), AllocError>
    ensures { OnOk result (ids maps.new ≡ record (ids maps.old) { elements = (ids maps.old).elements ++ upto count }) }
{
    for number in 0..count {
        maps.push_element(ElementId::from_index(number as usize))?;
    }
    Ok(())
}

/// The next numbers name so many data segments, from the first on.
///
/// # Errors
///
/// Want of memory.
pub fn number_segments(count: u32, maps: &mut IndicesToIds) -> Result<(), AllocError>
    ensures { OnOk result (ids maps.new ≡ record (ids maps.old) { segments = (ids maps.old).segments ++ upto count }) }
{
    for number in 0..count {
        maps.push_data(DataId::from_index(number as usize))?;
    }
    Ok(())
}
