//! Bodies computed from the grammar of bodies: facts, as functions with nothing to do.
#![tactic(auto)]

ghost use Rattle.wasm_body_grammar_tests.specs.Codes.{CodesHold};
ghost use Rattle.wasm_body_grammar_tests.specs.Edges.{EdgesHold};
ghost use Rattle.wasm_body_grammar_tests.specs.Rows.{PicksHold, RowsHold};
ghost use Rattle.wasm_body_grammar_tests.specs.Shapes.{ShapesHold};

/// The bodies of whole modules read as they are to, each operator at its place, or are refused at the place of the file that is to be
/// told.
pub fn bodies_of_modules()
    ensures { RowsHold }
{}

/// An operator of each shape reads, is missed at the end where it is cut, and is refused for each of its faults at its place.
pub fn operators_of_each_shape()
    ensures { ShapesHold }
{}

/// Operators whose features are on read, and are unknown where they are off; offsets, labels and indices at the edge of what is allowed
/// read, and past it they are refused.
pub fn operators_at_edges()
    ensures { EdgesHold }
{}

/// The pick for parameters and results is the short form, or the latest type that serves, of those that stand for themselves.
pub fn picks_of_types()
    ensures { PicksHold }
{}

/// The numbers of the table are those of the standard and no others, none behind the last row, and two lists of them are gated.
pub fn codes_of_operators()
    ensures { CodesHold }
{}
