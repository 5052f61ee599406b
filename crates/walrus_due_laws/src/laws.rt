//! Laws: functions with nothing to do, whose contracts hold of all that is due.

ghost use Rattle.walrus_due_laws.specs.DataCounts.{DataCountIsSpelled};
ghost use Rattle.walrus_due_laws.specs.Elements.{ElementsAreSpelled};
ghost use Rattle.walrus_due_laws.specs.Exports.{ExportsAreSpelled};
ghost use Rattle.walrus_due_laws.specs.FunctionTypes.{FunctionTypesAreSpelled};
ghost use Rattle.walrus_due_laws.specs.Globals.{GlobalsAreSpelled};
ghost use Rattle.walrus_due_laws.specs.Imports.{ImportsAreSpelled};
ghost use Rattle.walrus_due_laws.specs.Listed.{OwnItemsStay, PartsServe};
ghost use Rattle.walrus_due_laws.specs.Memories.{MemoriesAreSpelled};
ghost use Rattle.walrus_due_laws.specs.Segments.{SegmentsAreSpelled};
ghost use Rattle.walrus_due_laws.specs.Spelled.{FilesAreSpelled};
ghost use Rattle.walrus_due_laws.specs.Standard.{PartsAreSpelled, StandardIsAround};
ghost use Rattle.walrus_due_laws.specs.Starts.{StartIsSpelled};
ghost use Rattle.walrus_due_laws.specs.Tables.{TablesAreSpelled};
ghost use Rattle.walrus_due_laws.specs.Tags.{TagsAreSpelled};
ghost use Rattle.walrus_due_laws.specs.Types.{TypesAreSpelled};

/// The bytes of a file's sections are those of each section alone.
pub fn files_are_spelled()
    ensures { FilesAreSpelled }
{}

/// A type section that can be written is the shortest spelling of its groups.
pub fn types_are_spelled()
    ensures { TypesAreSpelled }
{}

/// An import section that can be written is the shortest spelling of its imports, renamed.
pub fn imports_are_spelled()
    ensures { ImportsAreSpelled }
{}

/// A function section that can be written is the shortest spelling of its functions' types, renamed.
pub fn function_types_are_spelled()
    ensures { FunctionTypesAreSpelled }
{}

/// A table section that can be written is the shortest spelling of its tables, renamed.
pub fn tables_are_spelled()
    ensures { TablesAreSpelled }
{}

/// A memory section that can be written is the shortest spelling of its memories.
pub fn memories_are_spelled()
    ensures { MemoriesAreSpelled }
{}

/// A tag section that can be written is the shortest spelling of its tags, renamed.
pub fn tags_are_spelled()
    ensures { TagsAreSpelled }
{}

/// A global section that can be written is the shortest spelling of its globals, renamed.
pub fn globals_are_spelled()
    ensures { GlobalsAreSpelled }
{}

/// An export section that can be written is the shortest spelling of its exports, renamed.
pub fn exports_are_spelled()
    ensures { ExportsAreSpelled }
{}

/// A start section that can be written is the shortest spelling of the start function's new number.
pub fn start_is_spelled()
    ensures { StartIsSpelled }
{}

/// An element section that can be written is the shortest spelling of its segments, renamed.
pub fn elements_are_spelled()
    ensures { ElementsAreSpelled }
{}

/// A data count section that can be written is the shortest spelling of the count of segments, and there is one just where it is asked for.
pub fn data_count_is_spelled()
    ensures { DataCountIsSpelled }
{}

/// A data section that can be written is the shortest spelling of its segments, renamed.
pub fn segments_are_spelled()
    ensures { SegmentsAreSpelled }
{}

/// The part that has all that lives has the entries of the module's own items, by rising number.
pub fn own_items_stay()
    ensures { OwnItemsStay }
{}

/// What imports bring stands in it at its new number, and so does its first table.
pub fn parts_serve()
    ensures { PartsServe }
{}

/// The standard sections of a module stand around its code, and places don't show in them.
pub fn standard_is_around()
    ensures { StandardIsAround }
{}

/// What is due around code by a plan's numbers is the shortest spelling of the standard sections of the plan's part.
pub fn parts_are_spelled()
    ensures { PartsAreSpelled }
{}
