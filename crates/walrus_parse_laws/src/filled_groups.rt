//! The types of a file in a module: their groups mean those of the file, renamed.

ghost use Rattle.walrus_parse_laws.specs.FilledGroups.{GroupsMean, ReadTypesAreDeclared};

use walrus_named_bodies::file_bodies::items_into::functions_into::types_into::laws::new_types_stand;

/// No type that was read is an entry type, which stands for a body's own block.
pub fn read_types_are_declared()
    ensures { ReadTypesAreDeclared }
{}

/// The groups of a table that began empty mean those of the file, each with the ids that its numbers name, but for single types that are
/// merged with earlier ones (Core Specification, binary format: type section).
pub fn groups_mean()
    ensures { GroupsMean }
{
    new_types_stand();
}
