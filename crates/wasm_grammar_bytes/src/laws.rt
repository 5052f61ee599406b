//! Laws: functions with nothing to do, whose contracts hold of all values.

ghost use Rattle.wasm_grammar_bytes.specs.Laws.{ValuesAreShortest};
ghost use Rattle.wasm_grammar_bytes.specs.Runs.{MaximalRunsAreShortest};
ghost use Rattle.wasm_grammar_bytes.specs.Maximal.{EachHasMaximalRuns};
ghost use Rattle.wasm_grammar_bytes.specs.Shortest.{BodiesHaveShortest};

/// Each value within its limits has a spelling; its shortest one is spelled by nothing shorter.
pub fn values_are_shortest()
    ensures { ValuesAreShortest }
{}

/// No runs that declare the same locals have fewer bytes than maximal ones.
pub fn maximal_runs_are_shortest()
    ensures { MaximalRunsAreShortest }
{}

/// The maximal runs of a list of locals are maximal, and declare that list.
pub fn each_has_maximal_runs()
    ensures { EachHasMaximalRuns }
{}

/// What reads as a body reads so in the maximal runs of its locals and the shortest spelling of each operator, too, places aside, and
/// nothing shorter reads so.
pub fn bodies_have_shortest()
    ensures { BodiesHaveShortest }
{}
