//! The types of a file into a module's table, and into the map from indices to ids.

ghost use Rattle.std.specs.Prelude.{◌≡◌, [], ◌++◌, OnOk, OnErr};
ghost use Rattle.walrus_index_maps.specs.Maps.{no_ids};
ghost use Rattle.walrus_index_maps.specs.Views.{ids};
ghost use Rattle.walrus_types.specs.Parsing.{AreBelow, parsed, unparsed};
ghost use Rattle.walrus_types_into.specs.Into.{AddsSome, AddsTypes, with_types};

use std::alloc::AllocError;
use walrus_arena::TypeId;
use walrus_index_maps::IndicesToIds;
use walrus_known_sections::KnownTypes;
use walrus_types::ModuleTypes;

// Ids of types, each under the next index.
fn push_types(types: &[TypeId], maps: &mut IndicesToIds) -> Result<(), AllocError>
    ensures pushed { OnOk result (ids maps.new ≡ with_types types.now (ids maps.old)) }
    ensures refused { OnErr result (AddsSome types.now (ids maps.old) (ids maps.new)) }
{
    for ty in types {
        maps.push_type(*ty)?;
    }
    Ok(())
}

/// Adds the types that were read to the table, and the ids of what stands for them to the map, in their order. A type of an unmarked
/// group of its own merges with an equal one of the table. Each group is let go of once it is added, so that its memory serves for what is
/// added next. Asks that each names types below the end of its group, as types that were read do.
///
/// # Errors
///
/// Want of memory. Some of the groups may be added, and some of the ids.
pub fn read_types_into(
    known: &mut KnownTypes,
    types: &mut ModuleTypes,
    maps: &mut IndicesToIds,
) -> Result<(), AllocError>
    requires { AreBelow 0 known.old }
    ensures types { OnOk result (types.new ≡ (parsed known.old (unparsed types.old)).table) }
    ensures ids { OnOk result (ids maps.new ≡ with_types (parsed known.old (unparsed types.old)).ids (ids maps.old)) }
    ensures refused { OnErr result (AddsTypes known.old types.old types.new) }
    ensures some { OnErr result (AddsSome (parsed known.old (unparsed types.old)).ids (ids maps.old) (ids maps.new)) }
    ensures left { known.new ≡ [] }
{
    let ids = types.parse_own_types(known.take_groups())?;
    push_types(ids.as_slice(), maps)
}
