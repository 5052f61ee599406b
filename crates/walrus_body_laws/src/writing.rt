//! What is written for a body, in the words of its operators: laws as functions with nothing to do.

ghost use Rattle.walrus_body_laws.specs.Forms.{ControlIsTold};
ghost use Rattle.walrus_body_laws.specs.WritingLaws.{BytesAgree, PlacesAgree, SizesAgree};
ghost use Rattle.walrus_body_laws.specs.Naming.{LocalsAgree, SegmentsAgree};
ghost use Rattle.walrus_body_laws.specs.Nesting.{TreesNest};
ghost use Rattle.walrus_body_laws.specs.Renaming.{TextsAreRenamed};

/// The bytes that are written for a text are those of its operators, the places that are kept are their true pairs, and its size is
/// theirs.
pub fn text_is_operators()
    ensures bytes { BytesAgree }
    ensures places { PlacesAgree }
    ensures sizes { SizesAgree }
{}

/// The locals and the data segments that a text names are, by their numbers, those that its operators name, in their order.
pub fn names_are_operators()
    ensures locals { LocalsAgree }
    ensures segments { SegmentsAgree }
{}

/// The operators that are written for sequences that form a tree nest.
pub fn trees_nest()
    ensures { TreesNest }
{
    walrus_tree::laws::trees_are_nested();
    walrus_tree::laws::text_is_plain();
    walrus_tree::laws::trees_are_sound();
}

/// What is written under a map of ids is what is written where each id is its own number, renamed as the map renames.
pub fn texts_are_renamed()
    ensures { TextsAreRenamed }
{
    walrus_pairing::laws::operators_are_sent();
}

/// Instructions that have one operator, under maps that undo each other, are one and the same where they hold neither a label nor the type
/// of a block; those that do have a code for each form, so that they are of one form.
pub fn control_forms_are_told()
    ensures { ControlIsTold }
{
    walrus_pairing::laws::instructions_come_back();
}
