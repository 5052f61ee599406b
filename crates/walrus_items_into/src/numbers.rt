//! What the numbers of a file name, in all spaces at once.

ghost use Rattle.std.specs.Prelude.{◌≡◌, IfOk, OnOk};
ghost use Rattle.walrus_read_laws.specs.walrus_tables_into.walrus_sections_into.walrus_index_maps.Views.{ids};
ghost use Rattle.walrus_items_into.specs.Numbers.{with_items};

use std::alloc::AllocError;
use walrus_index_maps::IndicesToIds;
use walrus_known_sections::Sections;
use walrus_tables_into::sections_into::{
    number_elements, number_globals, number_memories, number_segments, number_tables, number_tags,
};

// So many items. 2^32 of them can't be held.
fn small(count: usize) -> Result<u32, AllocError>
    ensures { IfOk result (λ n. n ≡ count) }
{
    if count > u32::MAX as usize {
        return Err(AllocError);
    }
    Ok(count as u32)
}

/// The next numbers of each space but those of types and functions name the items that were read, from the first on.
///
/// # Errors
///
/// Want of memory. Some of the numbers may name items.
pub fn number_items(sections: &Sections<'_>, maps: &mut IndicesToIds) -> Result<(), AllocError>
    ensures { OnOk result (ids maps.new ≡ with_items sections.now (ids maps.old)) }
{
    let tables = small(sections.tables.len())?;
    number_tables(tables, maps)?;
    let memories = small(sections.memories.len())?;
    number_memories(memories, maps)?;
    let tags = small(sections.tags.len())?;
    number_tags(tags, maps)?;
    let globals = small(sections.globals.len())?;
    number_globals(globals, maps)?;
    let elements = small(sections.elements.len())?;
    number_elements(elements, maps)?;
    let segments = small(sections.segments.len())?;
    number_segments(segments, maps)
}
