//! Laws of tables of types: what is parsed and emitted, once and again.

ghost use Rattle.walrus_type_laws.specs.Alike.{AlikeAreWrittenAlike};
ghost use Rattle.walrus_type_laws.specs.Edited.{EditedAreReadBack, EditedAreSound, EditedAreWrittenAgain};
ghost use Rattle.walrus_type_laws.specs.Rounds.{SectionsAreCarried, SecondRoundIsFirst};

/// Tables that differ only in their ids and in the order of groups that aren't anchors are written by
/// the same records.
pub fn alike_tables_are_written_alike()
    ensures { AlikeAreWrittenAlike }
{}

/// What is emitted after a section was read into a new table has its types and no others: an index map
/// carries each onto the output, its definition kept, and two to one place exactly where they stand for
/// one type.
pub fn sections_are_carried()
    ensures { SectionsAreCarried }
{}

/// What was emitted is emitted again, each type at its index, after it is read into a new table.
pub fn second_round_is_first()
    ensures { SecondRoundIsFirst }
{}

/// What a table emits after adds and deletes is read back into a new table as the same types, each under
/// its index, groups of several types explicit. Asks that no single type equals an earlier one: adds
/// keep this, and deletes where groups without a mark have one member, as all have that calls make.
pub fn edited_are_read_back()
    ensures { EditedAreReadBack }
{}

/// What was read back so is emitted as it was, each type at its index; a group of several types without
/// a mark, which no call makes, has one then.
pub fn edited_are_written_again()
    ensures { EditedAreWrittenAgain }
{}

/// Emitting what was read back so is refused for want of memory alone.
pub fn edited_are_sound()
    ensures { EditedAreSound }
{}
