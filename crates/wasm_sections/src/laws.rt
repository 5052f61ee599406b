//! Laws: functions with nothing to do, whose contracts hold of all files.

ghost use Rattle.wasm_sections.specs.Laws.{SectionsReadOnce, SectionsDontStop, SectionsReadOrStop, SectionsStopOnce, SectionsStopInside, SectionsStopForGood, ContentsStopForGood, EntriesArePrefixFree};

/// The sections of a file say one thing at most.
pub fn sections_read_once()
    ensures { SectionsReadOnce }
{}

/// A file whose sections read doesn't stop in them.
pub fn sections_dont_stop()
    ensures { SectionsDontStop }
{}

/// A file whose sections don't read stops in them.
pub fn sections_read_or_stop()
    ensures { SectionsReadOrStop }
{}

/// No file stops with two faults, or at two places.
pub fn sections_stop_once()
    ensures { SectionsStopOnce }
{}

/// A fault stands in the file, or at its end.
pub fn sections_stop_inside()
    ensures { SectionsStopInside }
{}

/// Bytes behind a fault don't change it, unless the file ends too early: in its header, in a section, or before counts that are missing.
pub fn sections_stop_for_good()
    ensures { SectionsStopForGood }
{}

/// Bytes behind a fault in its section don't change it, the section's end and limits aside.
pub fn contents_stop_for_good()
    ensures { ContentsStopForGood }
{}

/// Entries of sections, constant expressions and sections that meet the rules are prefix-free.
pub fn entries_are_prefix_free()
    ensures { EntriesArePrefixFree }
{}
