//! Laws: functions with nothing to do, whose contracts hold of all runs.

ghost use Rattle.wasm_runs.specs.Laws.{EachBodyEnds, EachRunEnds, OneBodyTrace, OneTrace};

/// Each run of a function of a module has a trace, and no run has two.
#[tactic(auto, using(crate::proofs::Ends::each_run_ends, crate::proofs::Ends::one_trace))]
pub fn each_run_has_one_trace()
    ensures ends { EachRunEnds }
    ensures one { OneTrace }
{}

/// So has each run of a body that is cut at its calls.
#[tactic(auto, using(crate::proofs::Ends::each_body_ends, crate::proofs::Ends::one_body_trace))]
pub fn each_body_has_one_trace()
    ensures ends { EachBodyEnds }
    ensures one { OneBodyTrace }
{}
