//! Laws of bodies that were read: what their walks name.
ghost use Rattle.walrus_body_laws.specs.WalkingLaws.{HandlersHaveAnswers, TriesHaveAnswers, WalksNameAnswers};

/// Each item that the walk of a body names, its own block type aside, is one that the sight answers with by which its sequences stand as a
/// normal form of its text: types, also inside heap types, value types and block types, functions, tables, memories, tags, globals, segments and locals.
pub fn walks_name_answers()
    ensures { WalksNameAnswers }
{
    walrus_pairing::laws::operators_come_back();
    walrus_body_trees::meaning::names_are_told();
    wasm_operators::laws::names_are_renamed();
    wasm_operators::laws::operators_in_range_are_spelled();
}

/// In the tree of such a body, what the block types of legacy `try`s name are such items, whatever types handlers have.
pub fn tries_have_answers()
    ensures { TriesHaveAnswers }
{
    walrus_pairing::laws::operators_come_back();
    walrus_body_trees::meaning::names_are_told();
    wasm_operators::laws::names_are_renamed();
    wasm_operators::laws::operators_in_range_are_spelled();
}

/// So it is of the block of each handler that the tree tells.
pub fn handlers_have_answers()
    ensures { HandlersHaveAnswers }
{
    tries_have_answers();
}
